//! An upstream registry with one schema.

use schema_registry::KeepFault;
use std::alloc::{AllocError, Global};
use upstream_schemas::{ExchangeFault, Upstream};

/// An upstream registry that answers one schema for each id, whose text has a documentation of this number of bytes. It
/// keeps nothing.
#[derive(Drop)]
pub(crate) struct SteadyUpstream {
    pub(crate) alloc: Global,
    pub(crate) length: usize,
}

/// Returns the answer with a schema whose documentation has a number of bytes.
fn answer_of(alloc: Global, length: usize) -> Result<Vec<u8>, AllocError> {
    let mut answer = String::from_str(alloc, "HTTP/1.1 200 OK\r\n\r\n{\"schema\":\"")?;
    answer.push_str("{\\\"type\\\":\\\"int\\\",\\\"doc\\\":\\\"")?;
    for _ in 0..length {
        answer.push_str("x")?;
    }
    answer.push_str("\\\"}\"}")?;
    Ok(answer.into_bytes())
}

impl Upstream for SteadyUpstream {
    ghost use Rattle.std.specs.Prelude.{⊤};

    ghost heard = { λ question received. ⊤ };

    ghost kept = { λ id text. ⊤ };

    fn exchange(&self, _question: &str) -> Result<Vec<u8>, ExchangeFault> {
        match answer_of(self.alloc, self.length) {
            Ok(answer) => Ok(answer),
            Err(AllocError) => Err(ExchangeFault::NoMemory),
        }
    }

    fn keep(&self, _id: u32, _text: &str) -> Result<(), KeepFault> {
        Ok(())
    }
}
