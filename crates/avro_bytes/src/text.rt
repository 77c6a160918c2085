//! UTF-8 after its length.

ghost use Rattle.std.specs.Prelude.{◌≡◌, ◌≤◌, ◌<◌, ℕ, List, length, string_bytes, IfOk};
ghost use Rattle.avro_bytes.specs.Contract.{Finds};
ghost use Rattle.avro_bytes.specs.Decoding.{IsComplete};
ghost use Rattle.spec_avro.specs.Fault.{FaultyText};
ghost use Rattle.spec_avro.specs.Text.{IsText};
ghost use Rattle.avro_bytes.specs.Text.{text_at};
ghost use Rattle.avro_bytes.specs.Laws.Texts.{text_complete, text_one_form, text_sound, text_steady};
ghost use Rattle.avro_bytes.specs.Laws.TextDefects.{text_defect, text_told};

use crate::blob::content;
use crate::form::WireForm;
use crate::meter::Meter;
use spec_avro::MalformedKind;
use spec_decoding::Fault;
use std::alloc::Global;

/// UTF-8 after its length.
#[derive(Clone, Copy, Debug)]
pub struct Text {
    pub alloc: Global,
}

/// Reads the text after the length at an offset, borrowed from the bytes: the text, the offset after it, and the
/// meter; else the first fault.
#[tactic(auto, using(crate::specs::Laws::Texts::text_complete_is, crate::specs::Laws::Texts::text_bad), unfolding(crate::specs::Text::text_at))]
fn valid_text(bytes: &[u8], at: usize, meter: Meter) -> Result<(&str, usize, Meter), Fault>
    requires { at ≤ length bytes.now }
    ensures finds { Finds (λ text. text.now) result (text_at bytes.now at meter) }
    ensures within { IfOk result (λ r. r.1 ≤ length bytes.now) }
    ensures depth { IfOk result (λ r. r.2.depth ≡ meter.depth) }
    ensures units { IfOk result (λ r. meter.units ≤ r.2.units) }
{
    let (content, to, meter) = content(bytes, at, meter)?;
    let Ok(text) = simdutf8::compat::from_utf8(content) else {
        return Err(Fault::Malformed {
            kind: MalformedKind::BadText,
            at: to - content.len(),
        });
    };
    Ok((text, to, meter))
}

impl WireForm for Text {
    type Value = String;

    ghost Meaning = { List ℕ };

    ghost meaning = { string_bytes };

    ghost spells = { λ _ text bytes. IsText text bytes };

    ghost faulty = { λ _ bytes m d. FaultyText bytes d };

    ghost counts = { λ _ m after. m ≡ after };

    ghost lacks = { λ _. IsComplete };

    ghost decoding = { λ _ bytes at m. text_at bytes at m };

    ghost sound = { λ _ bytes at m text to after e. text_sound bytes at m text to after e };

    ghost complete = { λ _ before spelling rest m text after s e. text_complete before spelling rest text m after s e };

    ghost one_form = { λ _ a b x y v w s t e. text_one_form a b x y v w s t e };

    ghost steady = { λ _ bytes more at m le c. text_steady bytes more at m le c };

    ghost defect = { λ _ bytes at m le. text_defect bytes at m };

    ghost told = { λ _ before bytes m d f. text_told before bytes m d f };

    fn read(&self, bytes: &[u8], at: usize, meter: Meter) -> Result<(String, usize, Meter), Fault> {
        let (text, to, meter) = valid_text(bytes, at, meter)?;
        Ok((String::from_str(self.alloc, text)?, to, meter))
    }

    fn skip(&self, bytes: &[u8], at: usize, meter: Meter) -> Result<(usize, Meter), Fault> {
        let (_, to, meter) = valid_text(bytes, at, meter)?;
        Ok((to, meter))
    }
}
