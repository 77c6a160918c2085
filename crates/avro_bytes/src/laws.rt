//! Laws of limits, numbers and contents. They do nothing when they run.

ghost use Rattle.std.specs.Prelude.{ℕ, ℤ, List, [], ◌∷◌, ◌++◌, ◌+◌, ◌≡◌, ◌≢◌, ◌≤◌, ◌<◌, ◌↔◌, suc, drop, length, Some, None};
ghost use Rattle.avro_bytes.specs.Blob.{content_at, fixed_at};
ghost use Rattle.spec_decoding.specs.BlockDecoding.{next_block, next_item};
ghost use Rattle.spec_avro.specs.BlockFault.{FaultyHead};
ghost use Rattle.spec_avro.specs.Blocks.{IsItems};
ghost use Rattle.spec_decoding.specs.Decoding.{Complete, Failed};
ghost use Rattle.avro_bytes.specs.Decoding.{Stands};
ghost use Rattle.spec_avro.specs.Defect.{Defect, Malformed, Need};
ghost use Rattle.avro_bytes.specs.Fault.{HasDefect, failing};
ghost use Rattle.spec_decoding.specs.LengthDecoding.{length_at};
ghost use Rattle.spec_avro.specs.Meter.{RefusesItem};
ghost use Rattle.spec_decoding.specs.Opening.{closed_blocks};
ghost use Rattle.spec_avro.specs.Number.{IsNumber32, IsNumber64, int_limit, long_limit};
ghost use Rattle.avro_bytes.specs.Shortest.{AreBytes, FitsLimit, IsTight};
ghost use Rattle.spec_avro.specs.Shortest.{shortest};
ghost use Rattle.spec_decoding.specs.Walk.{Walk, first_walk};
ghost use Rattle.avro_bytes.specs.Walking.{Comes, IsMet, Leads, Remains};
ghost use Rattle.spec_avro.specs.declared.malformed.MalformedKind.TheVariants.{BadBlock};
ghost use Rattle.spec_avro.specs.declared.meter.Meter.{Meter};

use crate::limits::{
    INT_BYTES, INT_LAST, LONG_BYTES, LONG_LAST, MOST_CONTENT, MOST_DEPTH, MOST_OUTPUT,
    MOST_PAYLOAD, MOST_UNITS,
};

/// The law of what each limit is.
pub fn limits_are_these()
    ensures depth { MOST_DEPTH ≡ 1000 }
    ensures units { MOST_UNITS ≡ 1048576 }
    ensures content { MOST_CONTENT ≡ 16777216 }
    ensures long_bytes { LONG_BYTES ≡ 10 }
    ensures long_last { LONG_LAST ≡ 1 }
    ensures int_bytes { INT_BYTES ≡ 5 }
    ensures int_last { INT_LAST ≡ 15 }
    ensures payload { MOST_PAYLOAD ≡ 16777216 }
    ensures output { MOST_OUTPUT ≡ 67108864 }
{}

/// The law that the shortest encoding is an encoding, of the width that holds the number, and that no other is
/// shorter.
pub fn shortest_spelling_is_shortest()
    ensures long { (n : ℤ) → FitsLimit long_limit n → IsNumber64 n (shortest n) }
    ensures int { (n : ℤ) → FitsLimit int_limit n → IsNumber32 n (shortest n) }
    ensures none_shorter { (n : ℤ) (bytes : List ℕ) → IsNumber64 n bytes
        → length (shortest n) ≤ length bytes }
    ensures no_int_shorter { (n : ℤ) (bytes : List ℕ) → IsNumber32 n bytes
        → length (shortest n) ≤ length bytes }
{}

/// The law that an encoding of one byte, or whose last byte is above 0, is the shortest one.
pub fn tight_spelling_is_the_shortest()
    ensures long { (n : ℤ) (bytes : List ℕ) → AreBytes bytes → IsNumber64 n bytes → IsTight bytes
        → bytes ≡ shortest n }
    ensures int { (n : ℤ) (bytes : List ℕ) → AreBytes bytes → IsNumber32 n bytes → IsTight bytes
        → bytes ≡ shortest n }
{}

/// The law that a content is read as its length is, and then as a fixed of that size.
pub fn content_is_a_length_and_a_fixed()
    ensures fixed { (bytes : List ℕ) (at n to : ℕ) (m after : Meter)
        → length_at bytes at m ≡ Complete n to after →
        content_at bytes at m ≡ fixed_at n bytes to after }
    ensures failed { (bytes : List ℕ) (at : ℕ) (m : Meter) (d : Defect) → length_at bytes at m ≡ Failed d →
        content_at bytes at m ≡ Failed d }
{}

/// The law that a walk over blocks comes to the items that are encoded in them, in order, and to no others.
pub fn walks_pass_the_items()
    ensures first { (start at : ℕ) (items : List (List ℕ)) (bytes : List ℕ) →
        IsItems items bytes ↔ Remains (first_walk start) at items bytes }
    ensures step_sound { (walk : Walk) (all : List ℕ) (at : ℕ) (m : Meter) (next : Walk) (to : ℕ)
        (after : Meter) →
        next_item walk all at m ≡ Complete (Some next) to after → Stands (Leads walk at next to) all at to }
    ensures end_sound { (walk : Walk) (all : List ℕ) (at : ℕ) (m : Meter) (to : ℕ) (after : Meter) →
        next_item walk all at m ≡ Complete None to after → Stands (Remains walk at []) all at to }
    ensures step_complete { (walk : Walk) (at : ℕ) (item : List ℕ) (items : List (List ℕ)) (bytes : List ℕ) →
        Remains walk at (item ∷ items) bytes → Comes walk at item items bytes }
    ensures end_complete { (walk : Walk) (before bytes more : List ℕ) (m : Meter) →
        Remains walk (length before) [] bytes → next_item walk (before ++ (bytes ++ more)) (length before) m
        ≡ Complete None (length before + length bytes) (closed_blocks m) }
    ensures steady { (walk : Walk) (all more : List ℕ) (at : ℕ) (m : Meter) → at ≤ length all →
        next_item walk all at m ≢ Failed Need → next_item walk (all ++ more) at m ≡ next_item walk all at m }
    ensures one_item { (walk : Walk) (at : ℕ) (i j : List ℕ) (is js : List (List ℕ)) (a b x y : List ℕ)
        (p : Comes walk at i is a) (q : Comes walk at j js b) → a ++ x ≡ b ++ y →
        (p.next ≡ q.next) × (p.head ≡ q.head) × (i ++ (p.rest ++ x) ≡ j ++ (q.rest ++ y)) }
    ensures item_or_end { (walk : Walk) (at : ℕ) (i : List ℕ) (is : List (List ℕ)) (a b x y : List ℕ) →
        Comes walk at i is a → Remains walk at [] b → a ++ x ≡ b ++ y → ⊥ }
    ensures one_end { (walk : Walk) (at : ℕ) (a b x y : List ℕ) →
        Remains walk at [] a → Remains walk at [] b → a ++ x ≡ b ++ y → a ≡ b }
{}

/// The law of where a walk is: the head of a block begins where reading began and its items after it, within a block
/// only the number of items that are left changes, and an end takes at least a byte.
pub fn walks_stand_at_their_blocks()
    ensures head { (walk next : Walk) (all : List ℕ) (at to : ℕ) (m after : Meter) →
        next_item walk all at m ≡ Complete (Some next) to after → walk.left ≡ 0 →
        (next.count_at ≡ at) × (next.items_at ≡ to) × (at < to) }
    ensures inside { (walk next : Walk) (all : List ℕ) (at to : ℕ) (m after : Meter) →
        next_item walk all at m ≡ Complete (Some next) to after → 0 < walk.left →
        (walk ≡ record next { left = suc next.left }) × (to ≡ at) }
    ensures end { (walk : Walk) (all : List ℕ) (at to : ℕ) (m after : Meter) →
        next_item walk all at m ≡ Complete None to after → (walk.left ≡ 0) × (at < to) }
{}

/// The law that a fault that a walk over blocks reports is the first one, and that the first one is reported.
pub fn walks_tell_the_first_fault()
    ensures within { (walk : Walk) (all : List ℕ) (at : ℕ) (m : Meter) → 0 < walk.left →
        HasDefect (next_item walk all at m) at (RefusesItem m) }
    ensures within_told { (walk : Walk) (all : List ℕ) (at : ℕ) (m : Meter) (d : Defect) →
        0 < walk.left → RefusesItem m d → next_item walk all at m ≡ failing at d }
    ensures at_end { (walk : Walk) (all : List ℕ) (at : ℕ) (m : Meter) → walk.left ≡ 0 → IsMet walk at →
        next_item walk all at m ≡ next_block all at m }
    ensures head { (all : List ℕ) (at : ℕ) (m : Meter) →
        HasDefect (next_block all at m) at (FaultyHead (drop at all) m) }
    ensures head_told { (before bytes : List ℕ) (m : Meter) (d : Defect) → FaultyHead bytes m d →
        next_block (before ++ bytes) (length before) m ≡ failing (length before) d }
    ensures bad_block_told { (walk : Walk) (all : List ℕ) (at : ℕ) (m : Meter) → walk.left ≡ 0
        → ¬ (IsMet walk at) →
        next_item walk all at m ≡ Failed (Malformed BadBlock walk.count_at) }
{}
