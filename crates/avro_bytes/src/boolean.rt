//! The encoding of a boolean.

ghost use Rattle.std.specs.Prelude.{◌≡◌, ◌≤◌, length, IfOk, Bool as Truth};
ghost use Rattle.spec_avro.specs.Boolean.{FaultyBoolean, IsBoolean};
ghost use Rattle.spec_decoding.specs.BooleanDecoding.{boolean_at};
ghost use Rattle.avro_bytes.specs.Contract.{Finds, Never};
ghost use Rattle.avro_bytes.specs.Laws.Booleans.{boolean_complete, boolean_defect, boolean_one_form, boolean_sound, boolean_steady, boolean_told};

use crate::form::WireForm;
use crate::meter::Meter;
use spec_avro::MalformedKind;
use spec_decoding::Fault;

/// A boolean.
#[derive(Clone, Copy, Debug)]
pub struct Bool;

/// Reads the boolean at an offset: its value, the offset after it, and the meter; else the first fault. Allocates
/// nothing.
#[tactic(auto, using(crate::specs::Laws::Booleans::boolean_past, crate::specs::Laws::Booleans::boolean_there))]
pub fn read_boolean(bytes: &[u8], at: usize, meter: Meter) -> Result<(bool, usize, Meter), Fault>
    requires { at ≤ length bytes.now }
    ensures finds { Finds (λ value. value) result (boolean_at bytes.now at meter) }
    ensures within { IfOk result (λ r. r.1 ≤ length bytes.now) }
    ensures depth { IfOk result (λ r. r.2.depth ≡ meter.depth) }
    ensures units { IfOk result (λ r. meter.units ≤ r.2.units) }
{
    if at == bytes.len() {
        return Err(Fault::Need);
    }
    let value = match bytes[at] {
        0 => false,
        1 => true,
        _ => {
            return Err(Fault::Malformed {
                kind: MalformedKind::BadBoolean,
                at,
            });
        }
    };
    Ok((value, at + 1, meter))
}

impl WireForm for Bool {
    type Value = bool;

    ghost Meaning = { Truth };

    ghost meaning = { λ value. value };

    ghost spells = { λ _ value bytes. IsBoolean value bytes };

    ghost faulty = { λ _ bytes m d. FaultyBoolean bytes d };

    ghost counts = { λ _ m after. m ≡ after };

    ghost lacks = { λ _. Never };

    ghost decoding = { λ _ bytes at m. boolean_at bytes at m };

    ghost sound = { λ _ bytes at m value to after e. boolean_sound bytes at m value to after e };

    ghost complete = { λ _ before spelling rest m value after s e.
        boolean_complete before spelling rest value m after s e };

    ghost one_form = { λ _ a b x y v w s t e. boolean_one_form a b x y v w s t e };

    ghost steady = { λ _ bytes more at m le c. boolean_steady bytes more at m le c };

    ghost defect = { λ _ bytes at m le. boolean_defect bytes at m };

    ghost told = { λ _ before bytes m d f. boolean_told before bytes m d f };

    fn read(&self, bytes: &[u8], at: usize, meter: Meter) -> Result<(bool, usize, Meter), Fault> {
        read_boolean(bytes, at, meter)
    }

    fn skip(&self, bytes: &[u8], at: usize, meter: Meter) -> Result<(usize, Meter), Fault> {
        let (_, to, meter) = read_boolean(bytes, at, meter)?;
        Ok((to, meter))
    }
}
