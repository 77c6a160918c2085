//! The length before a content.

ghost use Rattle.std.specs.Prelude.{◌≡◌, ◌≤◌, length, IfOk};
ghost use Rattle.avro_bytes.specs.Contract.{Finds};
ghost use Rattle.spec_decoding.specs.LengthDecoding.{length_at};

use crate::limits::MOST_CONTENT;
use crate::meter::Meter;
use crate::number::read_long;
use spec_avro::MalformedKind;
use spec_decoding::Fault;

/// Reads the length at an offset, of a content that follows it: the length in bytes, the offset after it, and the
/// meter; else the first fault. Allocates nothing.
#[tactic(auto, unfolding(spec_decoding::specs::LengthDecoding::length_at))]
pub fn read_length(bytes: &[u8], at: usize, meter: Meter) -> Result<(usize, usize, Meter), Fault>
    requires { at ≤ length bytes.now }
    ensures finds { Finds (λ n. n) result (length_at bytes.now at meter) }
    ensures most { IfOk result (λ r. r.0 ≤ MOST_CONTENT) }
    ensures within { IfOk result (λ r. r.1 ≤ length bytes.now) }
    ensures depth { IfOk result (λ r. r.2.depth ≡ meter.depth) }
    ensures units { IfOk result (λ r. meter.units ≤ r.2.units) }
{
    let (n, to, meter) = read_long(bytes, at, meter)?;
    if n < 0 || n > MOST_CONTENT as i64 {
        return Err(Fault::Malformed {
            kind: MalformedKind::BadLength,
            at,
        });
    }
    Ok((n as usize, to, meter))
}
