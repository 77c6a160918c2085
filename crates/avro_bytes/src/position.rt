//! Positions of symbols and of union branches.

ghost use Rattle.std.specs.Prelude.{◌≡◌, ◌≤◌, ◌<◌, ℕ, length, IfOk};
ghost use Rattle.avro_bytes.specs.Contract.{Finds, Never};
ghost use Rattle.spec_avro.specs.Position.{FaultyPosition, SpellsPosition};
ghost use Rattle.spec_decoding.specs.PositionDecoding.{position_at};
ghost use Rattle.avro_bytes.specs.Laws.Positions.{position_complete, position_defect, position_one_form, position_sound, position_steady, position_told};

use crate::form::WireForm;
use crate::meter::Meter;
use crate::number::read_int;
use spec_avro::MalformedKind;
use spec_decoding::Fault;

/// The position of one of `many` symbols or branches.
#[derive(Clone, Copy, Debug)]
pub struct Position {
    /// The fault to report where a number is no such position.
    pub bad: MalformedKind,
    pub many: usize,
}

/// Reads the position at an offset, below `many`, the number of symbols or branches: the position, the offset after
/// it, and the meter. Any other number is the fault `bad`. Allocates nothing.
#[tactic(auto, unfolding(spec_decoding::specs::PositionDecoding::position_at))]
pub fn read_position(
    bad: MalformedKind,
    many: usize,
    bytes: &[u8],
    at: usize,
    meter: Meter,
) -> Result<(u32, usize, Meter), Fault>
    requires { at ≤ length bytes.now }
    ensures finds { Finds (λ n. n) result (position_at bad many bytes.now at meter) }
    ensures position { IfOk result (λ r. r.0 < many) }
    ensures within { IfOk result (λ r. r.1 ≤ length bytes.now) }
    ensures depth { IfOk result (λ r. r.2.depth ≡ meter.depth) }
    ensures units { IfOk result (λ r. meter.units ≤ r.2.units) }
{
    let (n, to, meter) = read_int(bytes, at, meter)?;
    if n < 0 || n as usize >= many {
        return Err(Fault::Malformed { kind: bad, at });
    }
    Ok((n as u32, to, meter))
}

impl WireForm for Position {
    type Value = u32;

    ghost Meaning = { ℕ };

    ghost meaning = { λ n. n };

    ghost spells = { λ form n bytes. SpellsPosition form.many n bytes };

    ghost faulty = { λ form bytes m d. FaultyPosition form.bad form.many bytes d };

    ghost counts = { λ _ m after. m ≡ after };

    ghost lacks = { λ _. Never };

    ghost decoding = { λ form bytes at m. position_at form.bad form.many bytes at m };

    ghost sound = { λ form bytes at m n to after e. position_sound form.bad form.many bytes at m n to after e };

    ghost complete = { λ form before spelling rest m n after s e.
        position_complete form.bad form.many before spelling rest n m after s e };

    ghost one_form = { λ form a b x y v w s t e. position_one_form form.many a b x y v w s t e };

    ghost steady = { λ form bytes more at m le c. position_steady form.bad form.many bytes more at m le c };

    ghost defect = { λ form bytes at m le. position_defect form.bad form.many bytes at m };

    ghost told = { λ form before bytes m d f. position_told form.bad form.many before bytes m d f };

    fn read(&self, bytes: &[u8], at: usize, meter: Meter) -> Result<(u32, usize, Meter), Fault> {
        read_position(self.bad, self.many, bytes, at, meter)
    }

    fn skip(&self, bytes: &[u8], at: usize, meter: Meter) -> Result<(usize, Meter), Fault> {
        let (_, to, meter) = read_position(self.bad, self.many, bytes, at, meter)?;
        Ok((to, meter))
    }
}
