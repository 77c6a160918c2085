//! Zig-zag varints of 32 and of 64 bits.

ghost use Rattle.std.specs.Prelude.{◌≡◌, ◌≤◌, ◌<◌, ◌+◌, ◌-◌, ◌*◌, ◌^◌, ℤ, length, drop, IfOk};
ghost use Rattle.std.proofs.Common.{lit<};
ghost use Rattle.avro_bytes.specs.Contract.{Finds, Never};
ghost use Rattle.spec_avro.specs.Fault.{FaultyNumber};
ghost use Rattle.spec_avro.specs.Number.{IsNumber, Limit, int_limit, long_limit};
ghost use Rattle.avro_bytes.specs.NumberDecoding.{GivesGroups};
ghost use Rattle.spec_decoding.specs.NumberDecoding.{from_zigzag, number_at, number_front};
ghost use Rattle.avro_bytes.specs.Laws.Defects.{number_defect, number_told};
ghost use Rattle.avro_bytes.specs.Laws.Numbers.{number_complete, number_one_form, number_sound, number_steady};

use crate::form::WireForm;
use crate::limits::{INT_BYTES, INT_LAST, LONG_BYTES, LONG_LAST};
use crate::meter::Meter;
use spec_avro::MalformedKind;
use spec_decoding::Fault;

/// A number of 32 bits: an int, or a position.
#[derive(Clone, Copy, Debug)]
pub struct Int;

/// A number of 64 bits.
#[derive(Clone, Copy, Debug)]
pub struct Long;

/// Reads the groups of seven bits of the number at an offset, and returns them put together with the offset after
/// them. `Need` where bytes are missing, `BadNumber` where byte `most` is above `top`.
fn read_groups(bytes: &[u8], at: usize, most: usize, top: u8) -> Result<(u64, usize), Fault>
    requires in_bounds { at ≤ length bytes.now }
    requires some { 0 < most }
    requires most { most ≤ 10 }
    requires fits { most ≡ 10 → top ≤ 1 }
    requires below { top < 128 }
    ensures groups { GivesGroups result at (number_front most top (drop at bytes.now)) }
    ensures below { IfOk result (λ r. r.0 < (top + 1) * 2 ^ (7 * (most - 1))) }
    ensures within { IfOk result (λ r. r.1 ≤ length bytes.now) }
{
    let mut value = 0u64;
    let mut shift = 0u32;
    for i in 0..most {
        if at + i >= bytes.len() {
            return Err(Fault::Need);
        }
        let byte = bytes[at + i];
        if i + 1 == most && byte > top {
            return Err(Fault::Malformed {
                kind: MalformedKind::BadNumber,
                at,
            });
        }
        value += u64::from(byte & 127) << shift;
        if byte < 128 {
            return Ok((value, at + i + 1));
        }
        shift += 7;
    }
    unreachable!()
}

/// Returns the number whose zig-zag form is the groups of 64 bits.
fn signed(groups: u64) -> i64
    ensures { result ≡ from_zigzag groups }
{
    let half = (groups / 2) as i64;
    if groups % 2 == 0 { half } else { -half - 1 }
}

/// Returns the number whose zig-zag form is the groups of 32 bits.
fn signed_32(groups: u64) -> i32
    requires { groups < 2 ^ 32 }
    ensures { result ≡ from_zigzag groups }
{
    let half = (groups / 2) as i32;
    if groups % 2 == 0 { half } else { -half - 1 }
}

/// Reads the number of 64 bits at an offset: the number, the offset after it, and the meter; else the first fault.
/// Allocates nothing.
#[tactic(auto, unfolding(spec_decoding::specs::NumberDecoding::number_at))]
pub fn read_long(bytes: &[u8], at: usize, meter: Meter) -> Result<(i64, usize, Meter), Fault>
    requires { at ≤ length bytes.now }
    ensures finds { Finds (λ n. n) result (number_at long_limit bytes.now at meter) }
    ensures within { IfOk result (λ r. r.1 ≤ length bytes.now) }
    ensures depth { IfOk result (λ r. r.2.depth ≡ meter.depth) }
    ensures units { IfOk result (λ r. meter.units ≤ r.2.units) }
{
    let (groups, to) = read_groups(bytes, at, LONG_BYTES, LONG_LAST)?;
    Ok((signed(groups), to, meter))
}

/// Reads the number of 32 bits at an offset: the number, the offset after it, and the meter; else the first fault.
/// Allocates nothing.
#[tactic(auto, unfolding(spec_decoding::specs::NumberDecoding::number_at))]
pub fn read_int(bytes: &[u8], at: usize, meter: Meter) -> Result<(i32, usize, Meter), Fault>
    requires { at ≤ length bytes.now }
    ensures finds { Finds (λ n. n) result (number_at int_limit bytes.now at meter) }
    ensures within { IfOk result (λ r. r.1 ≤ length bytes.now) }
    ensures depth { IfOk result (λ r. r.2.depth ≡ meter.depth) }
    ensures units { IfOk result (λ r. meter.units ≤ r.2.units) }
{
    let (groups, to) = read_groups(bytes, at, INT_BYTES, INT_LAST)?;
    Ok((signed_32(groups), to, meter))
}

/// A width of numbers: 32 or 64 bits.
pub trait Width {
    type Number: Drop;

    /// The number, wherever it is in memory.
    ghost number: { Self.Number → ℤ };

    /// The most bytes that a number of this width has, and the greatest last byte of one that has as many.
    ghost limit: { Limit };

    /// Reads the number of this width at an offset: the number, the offset after it, and the meter; else the first
    /// fault. Allocates nothing.
    fn number(bytes: &[u8], at: usize, meter: Meter) -> Result<(Self::Number, usize, Meter), Fault>
        requires { at ≤ length bytes.now }
        ensures finds { Finds number result (number_at limit bytes.now at meter) }
        ensures within { IfOk result (λ r. r.1 ≤ length bytes.now) }
        ensures depth { IfOk result (λ r. r.2.depth ≡ meter.depth) }
        ensures units { IfOk result (λ r. meter.units ≤ r.2.units) };

    /// A number has a byte, and its last one no high bit.
    ghost ends: { (0 < limit.most) × (limit.top < 128) };
}

impl Width for Long {
    type Number = i64;

    ghost number = { λ n. n };

    ghost limit = { long_limit };

    ghost ends = { (lit< tt, lit< tt) };

    fn number(bytes: &[u8], at: usize, meter: Meter) -> Result<(i64, usize, Meter), Fault> {
        read_long(bytes, at, meter)
    }
}

impl Width for Int {
    type Number = i32;

    ghost number = { λ n. n };

    ghost limit = { int_limit };

    ghost ends = { (lit< tt, lit< tt) };

    fn number(bytes: &[u8], at: usize, meter: Meter) -> Result<(i32, usize, Meter), Fault> {
        read_int(bytes, at, meter)
    }
}

impl<W: Width> WireForm for W {
    type Value = W::Number;

    ghost Meaning = { ℤ };

    ghost meaning = { W.number };

    ghost spells = { λ _ n bytes. IsNumber W.limit n bytes };

    ghost faulty = { λ _ bytes m d. FaultyNumber W.limit bytes d };

    ghost counts = { λ _ m after. m ≡ after };

    ghost lacks = { λ _. Never };

    ghost decoding = { λ _ bytes at m. number_at W.limit bytes at m };

    ghost sound = { λ _ bytes at m n to after e. number_sound W.limit bytes at m n to after W.ends.1 e };

    ghost complete = { λ _ before spelling rest m n after s e.
        number_complete W.limit before spelling rest n m after s e };

    ghost one_form = { λ _ a b x y m n s t e. number_one_form W.limit a b x y m n s t e };

    ghost steady = { λ _ bytes more at m le c. number_steady W.limit bytes more at m le c };

    ghost defect = { λ _ bytes at m le. number_defect W.limit bytes at m W.ends.0 };

    ghost told = { λ _ before bytes m d f. number_told W.limit before bytes m d f };

    fn read(
        &self,
        bytes: &[u8],
        at: usize,
        meter: Meter,
    ) -> Result<(W::Number, usize, Meter), Fault> {
        W::number(bytes, at, meter)
    }

    fn skip(&self, bytes: &[u8], at: usize, meter: Meter) -> Result<(usize, Meter), Fault> {
        let (_, to, meter) = W::number(bytes, at, meter)?;
        Ok((to, meter))
    }
}
