//! What every encoding of values owes: reading, skipping, and their laws.

ghost use Rattle.std.specs.Prelude.{◌≡◌, ◌≢◌, ◌≤◌, ◌+◌, ◌++◌, ℕ, List, length, drop, IfOk};
ghost use Rattle.spec_avro.specs.declared.meter.Meter.{Meter};
ghost use Rattle.avro_bytes.specs.Contract.{AnswersAlike, Reads, skipped};
ghost use Rattle.spec_decoding.specs.Decoding.{Complete, Decoding, Failed};
ghost use Rattle.avro_bytes.specs.Decoding.{Stands};
ghost use Rattle.spec_avro.specs.Defect.{Defect, Need};
ghost use Rattle.avro_bytes.specs.Fault.{HasDefect, failing};

use crate::meter::Meter;
use spec_decoding::Fault;

/// An encoding of values as bytes. Offsets are counted from the start of the bytes.
pub trait WireForm {
    type Value;

    /// What a value is, wherever it is in memory.
    ghost Meaning: { Type 0 };

    ghost meaning: { Self.Value → Meaning };

    /// Which bytes encode a value.
    ghost spells: { Self → Meaning → List ℕ → Type 0 };

    /// Which bytes, from an offset with a meter on, begin no encoding, and what their first fault is.
    ghost faulty: { Self → List ℕ → Meter → Defect → Type 0 };

    /// That a value stays within the limits after a meter, and the meter after it.
    ghost counts: { Meaning → Meter → Meter → Type 0 };

    /// What decoding returns at an offset of the bytes.
    ghost decoding: { Self → List ℕ → ℕ → Meter → Decoding Meaning };

    /// How decoding may come out where reading runs out of memory; in no way, where reading takes none.
    ghost lacks: { Self → Decoding Meaning → Type 0 };

    /// Returns the value at an offset, the offset after its encoding, and the meter there; else the first fault.
    fn read(
        &self,
        bytes: &[u8],
        at: usize,
        meter: Meter,
    ) -> Result<(Self::Value, usize, Meter), Fault>
        requires { at ≤ length bytes.now }
        ensures reads { Reads meaning (lacks self.now) result (decoding self.now bytes.now at meter) }
        ensures within { IfOk result (λ r. r.1 ≤ length bytes.now) }
        ensures depth { IfOk result (λ r. r.2.depth ≡ meter.depth) }
        ensures units { IfOk result (λ r. meter.units ≤ r.2.units) };

    /// Returns what `read` returns, without the value. Allocates nothing.
    fn skip(&self, bytes: &[u8], at: usize, meter: Meter) -> Result<(usize, Meter), Fault>
        requires { at ≤ length bytes.now }
        ensures skips { result ≡ skipped (decoding self.now bytes.now at meter) }
        ensures within { IfOk result (λ r. r.0 ≤ length bytes.now) }
        ensures depth { IfOk result (λ r. r.1.depth ≡ meter.depth) }
        ensures units { IfOk result (λ r. meter.units ≤ r.1.units) };

    /// What is decoded has that encoding, within the limits.
    ghost sound: { (form : Self) (bytes : List ℕ) (at : ℕ) (m : Meter) (v : Meaning) (to : ℕ) (after : Meter) →
        decoding form bytes at m ≡ Complete v to after → Stands (spells form v) bytes at to × counts v m after };

    /// What has that encoding within the limits is decoded, whatever is before and after it.
    ghost complete: { (form : Self) (before spelling rest : List ℕ) (m : Meter) (v : Meaning) (after : Meter) →
        spells form v spelling → counts v m after →
        decoding form (before ++ (spelling ++ rest)) (length before) m
        ≡ Complete v (length before + length spelling) after };

    /// No encoding begins another, and each encodes one value.
    ghost one_form: { (form : Self) (a b x y : List ℕ) (v w : Meaning) →
        spells form v a → spells form w b → a ++ x ≡ b ++ y → (a ≡ b) × (v ≡ w) };

    /// What is decided stays so when more bytes come.
    ghost steady: { (form : Self) (bytes more : List ℕ) (at : ℕ) (m : Meter) →
        at ≤ length bytes → decoding form bytes at m ≢ Failed Need →
        decoding form (bytes ++ more) at m ≡ decoding form bytes at m };

    /// A fault that is reported is the first one.
    ghost defect: { (form : Self) (bytes : List ℕ) (at : ℕ) (m : Meter) →
        at ≤ length bytes → HasDefect (decoding form bytes at m) at (faulty form (drop at bytes) m) };

    /// The first fault is reported.
    ghost told: { (form : Self) (before bytes : List ℕ) (m : Meter) (d : Defect) →
        faulty form bytes m d → decoding form (before ++ bytes) (length before) m ≡ failing (length before) d };
}

/// The law that skipping returns what reading returns, without the value. Returns what both return for the same bytes.
pub fn read_and_skip<F: WireForm>(
    form: &F,
    bytes: &[u8],
    at: usize,
    meter: Meter,
) -> (
    Result<(F::Value, usize, Meter), Fault>,
    Result<(usize, Meter), Fault>,
)
    requires { at ≤ length bytes.now }
    ensures reads { Reads F.meaning (F.lacks form.now) result.0 (F.decoding form.now bytes.now at meter) }
    ensures skips { result.1 ≡ skipped (F.decoding form.now bytes.now at meter) }
    ensures alike { AnswersAlike result.0 result.1 }
{
    let read = form.read(bytes, at, meter);
    let skip = form.skip(bytes, at, meter);
    (read, skip)
}
