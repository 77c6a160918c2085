//! How much of a message was opened: its depth and its units.

ghost use Rattle.std.specs.Prelude.{◌≡◌};
ghost use Rattle.spec_decoding.specs.Opening.{opened_blocks, opened_item, opened_record};

use crate::limits::{MOST_DEPTH, MOST_UNITS};
use spec_avro::MalformedKind;
pub use spec_avro::Meter;
use spec_decoding::Fault;

/// Returns the meter inside a record that begins at an offset. `TooDeep` at that offset where `MOST_DEPTH` others are
/// open, else `TooMany` there after `MOST_UNITS` units.
pub fn enter_record(meter: Meter, at: usize) -> Result<Meter, Fault>
    ensures { result ≡ opened_record at meter }
{
    enter_item(enter_blocks(meter, at)?, at)
}

/// Returns the meter at an array item or a map pair that begins at an offset. `TooMany` there after `MOST_UNITS`
/// units.
pub fn enter_item(meter: Meter, at: usize) -> Result<Meter, Fault>
    ensures { result ≡ opened_item at meter }
{
    if meter.units >= MOST_UNITS {
        return Err(Fault::Malformed {
            kind: MalformedKind::TooMany,
            at,
        });
    }
    Ok(Meter {
        depth: meter.depth,
        units: meter.units + 1,
    })
}

/// Returns the meter inside an array or a map that begins at an offset. `TooDeep` there where `MOST_DEPTH` others are
/// open.
pub fn enter_blocks(meter: Meter, at: usize) -> Result<Meter, Fault>
    ensures { result ≡ opened_blocks at meter }
{
    if meter.depth >= MOST_DEPTH {
        return Err(Fault::Malformed {
            kind: MalformedKind::TooDeep,
            at,
        });
    }
    Ok(Meter {
        depth: meter.depth + 1,
        units: meter.units,
    })
}
