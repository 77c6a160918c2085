//! Why the content of another registry's answer has no schema.

ghost use Rattle.std.specs.Prelude.{◌≡◌};
ghost use Rattle.spec_service.specs.declared.upstream_content.ContentFault.TheVariants as contents;

use std::alloc::AllocError;
use thiserror::Error;

/// Why a content has no schema that this service takes.
#[derive(Clone, Copy, Debug, PartialEq, Eq, Error)]
pub enum ContentFault {
    #[error("the content is no JSON object")]
    NoJson,
    #[error("the object has no text of a schema")]
    NoSchema,
    #[error("the schema is not of Avro")]
    NotAvro,
    #[error("the schema refers to others")]
    HasReferences,
    #[error("out of memory")]
    NoMemory,
}

impl From<AllocError> for ContentFault {
    ghost from_gives = { λ _ e. e ≡ contents.NoMemory };

    fn from(_error: AllocError) -> ContentFault {
        ContentFault::NoMemory
    }
}
