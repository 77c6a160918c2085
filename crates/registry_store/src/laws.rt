//! Laws of the lines of stored commands.

ghost use Rattle.std.specs.Prelude.{◌≡◌, ◌<◌, ◌≤◌, ◌^◌, ℕ, List, Option, IfSome, length};
ghost use Rattle.registry_store.specs.Line.{IsOneLine, line_of};
ghost use Rattle.registry_store.specs.Store.{Keeps, Leaves};
ghost use Rattle.registry_store.specs.declared.store.CommandStore.{CommandStore};
ghost use Rattle.registry_store.specs.Stored.{LevelSet, MayBeStored, Registered, Stored};

use sqlite_disk::Disk;

/// The law that a line says one command: two commands that may be stored and have one line are one command.
pub fn a_line_says_one_command()
    ensures { (s t : Stored) → MayBeStored s → MayBeStored t → line_of s ≡ line_of t → s ≡ t }
{}

/// The law that a command is one line: no newline is within it.
pub fn a_command_is_one_line()
    ensures { (s : Stored) → MayBeStored s → IsOneLine (line_of s) }
{}

/// The law that a crash leaves just the commands that are kept.
pub fn a_crash_leaves_what_is_kept<D: Disk>()
    ensures { (store : CommandStore D) (commands left : List Stored)
        → Keeps D.seen D.may_leave D.is_clean store commands → Leaves D.may_leave D.is_clean store left
        → left ≡ commands }
{}

/// The law that a line has at most 2 ^ 20 bytes, where a subject and a level's name have at most 255 bytes and a
/// schema's text has at most 262,144.
pub fn a_line_has_at_most_a_mebibyte()
    ensures registration { (id : ℕ) (subject text : List ℕ) → id < 2 ^ 32 → length subject ≤ 255
        → length text ≤ 262144 → length (line_of (Registered id subject text)) ≤ 2 ^ 20 }
    ensures level { (subject : Option (List ℕ)) (level : List ℕ) → IfSome subject (λ s. length s ≤ 255)
        → length level ≤ 255 → length (line_of (LevelSet subject level)) ≤ 2 ^ 20 }
{}
