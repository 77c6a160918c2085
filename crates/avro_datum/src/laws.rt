//! Laws of payloads and of written data. They do nothing when they run.

ghost use Rattle.std.specs.Prelude.{◌≡◌, ◌≤◌, ◌⊎◌, ℕ, List, length};
ghost use Rattle.spec_avro.specs.declared.malformed.MalformedKind.{MalformedKind};
ghost use Rattle.spec_avro.specs.Conforming.{Conforms};
ghost use Rattle.spec_avro.specs.Node.{Node};
ghost use Rattle.spec_avro.specs.WellFormed.{IsWellFormed};
ghost use Rattle.spec_avro.specs.Datum as datum;
ghost use Rattle.spec_avro.specs.Writable.{IsWritable, most_items};
ghost use Rattle.spec_avro.specs.FaultyDatum.{FirstFault};
ghost use Rattle.spec_avro.specs.Payload.{IsPayload};
ghost use Rattle.spec_avro.specs.Spelling.{Spells, units_of};
ghost use Rattle.spec_avro.specs.Writing.{written};

/// The law that a payload encodes one datum or has one first fault, and never both.
pub fn payload_is_spelled_or_faulty()
    ensures either { (nodes : List Node) (payload : List ℕ) →
        ((d : datum.Datum) × IsPayload nodes d payload)
        ⊎ ((kind : MalformedKind) × (at : ℕ) × FirstFault nodes payload kind at) }
    ensures one_datum { (nodes : List Node) (payload : List ℕ) (d e : datum.Datum) →
        IsPayload nodes d payload → IsPayload nodes e payload → d ≡ e }
    ensures one_fault { (nodes : List Node) (payload : List ℕ) (kind other : MalformedKind) (at place : ℕ) →
        FirstFault nodes payload kind at → FirstFault nodes payload other place → (kind ≡ other) × (at ≡ place) }
    ensures never_both { (nodes : List Node) (payload : List ℕ) (d : datum.Datum) (kind : MalformedKind)
        (at : ℕ) →
        IsPayload nodes d payload → ¬ (FirstFault nodes payload kind at) }
{}

/// The law that the written form of a node's datum is an encoding of it, where its texts are short enough and a long
/// can count its items, and that no encoding is shorter.
pub fn written_form_is_the_shortest_spelling()
    ensures spelled { (nodes : List Node) (node : ℕ) (d : datum.Datum) →
        IsWellFormed nodes → Conforms nodes node d → IsWritable d → Spells nodes node d (written d) }
    ensures none_shorter { (nodes : List Node) (node : ℕ) (d : datum.Datum) (bytes : List ℕ) →
        Spells nodes node d bytes → length (written d) ≤ length bytes }
{}

/// The law that a datum that is encoded is of its node's type, and can be written again, where a long can count its
/// units.
pub fn spelled_datum_conforms()
    ensures conforms { (nodes : List Node) (node : ℕ) (d : datum.Datum) (bytes : List ℕ) →
        Spells nodes node d bytes → Conforms nodes node d }
    ensures writable { (nodes : List Node) (node : ℕ) (d : datum.Datum) (bytes : List ℕ) →
        Spells nodes node d bytes → units_of d ≤ most_items → IsWritable d }
{}
