//! Bytes after their length, and fixed contents.

ghost use Rattle.std.specs.Prelude.{◌≡◌, ◌≤◌, ℕ, List, length, IfOk};
ghost use Rattle.spec_avro.specs.Blob.{FaultyFixed, IsBlob, IsFixed};
ghost use Rattle.avro_bytes.specs.Blob.{content_at, fixed_at};
ghost use Rattle.avro_bytes.specs.Contract.{Finds};
ghost use Rattle.avro_bytes.specs.Decoding.{IsComplete};
ghost use Rattle.spec_avro.specs.Fault.{FaultyContent};
ghost use Rattle.avro_bytes.specs.Laws.Blobs.{blob_complete, blob_one_form, blob_sound, content_steady};
ghost use Rattle.avro_bytes.specs.Laws.Fixeds.{fixed_complete, fixed_defect, fixed_one_form, fixed_sound, fixed_steady, fixed_told};
ghost use Rattle.avro_bytes.specs.Laws.BlobDefects.{content_defect, content_told};

use crate::form::WireForm;
use crate::length::read_length;
use crate::meter::Meter;
use spec_decoding::Fault;
use std::alloc::Global;

/// Returns the `size` bytes at an offset, the offset after them, and the meter; `Need` where there are fewer bytes.
#[tactic(auto, unfolding(crate::specs::Blob::fixed_at))]
fn fixed(bytes: &[u8], size: usize, at: usize, meter: Meter) -> Result<(&[u8], usize, Meter), Fault>
    requires { at ≤ length bytes.now }
    ensures finds { Finds (λ content. content.now) result (fixed_at size bytes.now at meter) }
    ensures before { IfOk result (λ r. length r.0.now ≤ r.1) }
    ensures within { IfOk result (λ r. r.1 ≤ length bytes.now) }
    ensures depth { IfOk result (λ r. r.2.depth ≡ meter.depth) }
    ensures units { IfOk result (λ r. meter.units ≤ r.2.units) }
{
    if bytes.len() - at < size {
        return Err(Fault::Need);
    }
    Ok((&bytes[at..at + size], at + size, meter))
}

/// Returns the content after the length at an offset, the offset after the content, and the meter; else the first
/// fault.
#[tactic(auto, unfolding(crate::specs::Blob::content_at))]
pub(crate) fn content(bytes: &[u8], at: usize, meter: Meter) -> Result<(&[u8], usize, Meter), Fault>
    requires { at ≤ length bytes.now }
    ensures finds { Finds (λ content. content.now) result (content_at bytes.now at meter) }
    ensures before { IfOk result (λ r. length r.0.now ≤ r.1) }
    ensures within { IfOk result (λ r. r.1 ≤ length bytes.now) }
    ensures depth { IfOk result (λ r. r.2.depth ≡ meter.depth) }
    ensures units { IfOk result (λ r. meter.units ≤ r.2.units) }
{
    let (len, to, meter) = read_length(bytes, at, meter)?;
    fixed(bytes, len, to, meter)
}

/// Bytes after their length.
#[derive(Clone, Copy, Debug)]
pub struct Blob {
    pub alloc: Global,
}

impl WireForm for Blob {
    type Value = Vec<u8>;

    ghost Meaning = { List ℕ };

    ghost meaning = { λ value. value.items };

    ghost spells = { λ _ value bytes. IsBlob value bytes };

    ghost faulty = { λ _ bytes m d. FaultyContent bytes d };

    ghost counts = { λ _ m after. m ≡ after };

    ghost lacks = { λ _. IsComplete };

    ghost decoding = { λ _ bytes at m. content_at bytes at m };

    ghost sound = { λ _ bytes at m value to after e. blob_sound bytes at m value to after e };

    ghost complete = { λ _ before spelling rest m value after s e.
        blob_complete before spelling rest value m after s e };

    ghost one_form = { λ _ a b x y v w s t e. blob_one_form a b x y v w s t e };

    ghost steady = { λ _ bytes more at m le c. content_steady bytes more at m le c };

    ghost defect = { λ _ bytes at m le. content_defect bytes at m };

    ghost told = { λ _ before bytes m d f. content_told before bytes m d f };

    fn read(
        &self,
        bytes: &[u8],
        at: usize,
        meter: Meter,
    ) -> Result<(Vec<u8>, usize, Meter), Fault> {
        let (content, to, meter) = content(bytes, at, meter)?;
        Ok((Vec::from_slice(self.alloc, content)?, to, meter))
    }

    fn skip(&self, bytes: &[u8], at: usize, meter: Meter) -> Result<(usize, Meter), Fault> {
        let (_, to, meter) = content(bytes, at, meter)?;
        Ok((to, meter))
    }
}

/// A given number of bytes, as a fixed has them.
#[derive(Clone, Copy, Debug)]
pub struct FixedBytes {
    pub alloc: Global,
    pub size: usize,
}

impl WireForm for FixedBytes {
    type Value = Vec<u8>;

    ghost Meaning = { List ℕ };

    ghost meaning = { λ value. value.items };

    ghost spells = { λ form value bytes. IsFixed form.size value bytes };

    ghost faulty = { λ form bytes m d. FaultyFixed form.size bytes d };

    ghost counts = { λ _ m after. m ≡ after };

    ghost lacks = { λ _. IsComplete };

    ghost decoding = { λ form bytes at m. fixed_at form.size bytes at m };

    ghost sound = { λ form bytes at m value to after e. fixed_sound form.size bytes at m value to after e };

    ghost complete = { λ form before spelling rest m value after s e.
        fixed_complete form.size before spelling rest value m after s e };

    ghost one_form = { λ form a b x y v w s t e. fixed_one_form form.size a b x y v w s t e };

    ghost steady = { λ form bytes more at m le c. fixed_steady form.size bytes more at m le c };

    ghost defect = { λ form bytes at m le. fixed_defect form.size bytes at m };

    ghost told = { λ form before bytes m d f. fixed_told form.size before bytes m d f };

    fn read(
        &self,
        bytes: &[u8],
        at: usize,
        meter: Meter,
    ) -> Result<(Vec<u8>, usize, Meter), Fault> {
        let (content, to, meter) = fixed(bytes, self.size, at, meter)?;
        Ok((Vec::from_slice(self.alloc, content)?, to, meter))
    }

    fn skip(&self, bytes: &[u8], at: usize, meter: Meter) -> Result<(usize, Meter), Fault> {
        let (_, to, meter) = fixed(bytes, self.size, at, meter)?;
        Ok((to, meter))
    }
}
