//! Whether the names of two types match.

ghost use Rattle.std.specs.Prelude.{◌≡◌, ◌||◌};
ghost use Rattle.std.specs.Str.{bytes_eq};
ghost use Rattle.spec_avro.specs.FullNames.{unqualified};
ghost use Rattle.spec_avro.specs.Symbols.{is_used};

use avro_types::{Aliases, Name};

/// Returns whether the last parts of two full names are the same. They are compared from their ends, since the names
/// of many types differ there, and often there alone.
fn have_same_last(one: &Name, other: &Name) -> bool
    ensures { result ≡ bytes_eq (unqualified one.now) (unqualified other.now) }
{
    let (one, other) = (one.last().as_bytes(), other.last().as_bytes());
    one.len() == other.len() && one.last() == other.last() && one == other
}

/// Returns whether the last parts of two full names are the same, or the writer's is an alias of the reader's.
pub(crate) fn have_matching_names(writer: &Name, reader: &Name, aliases: &Aliases) -> bool
    ensures { result ≡ (bytes_eq (unqualified writer.now) (unqualified reader.now)
        || is_used writer.now aliases.now) }
{
    have_same_last(writer, reader) || aliases.contains(writer)
}
