//! The limits of an answer, which are this project's own.

ghost use Rattle.std.specs.Prelude.{◌≡◌};
ghost use Rattle.spec_service.specs.UpstreamAnswer.{limits};

use http1::Limits;
pub use spec_service::upstream_limits::{
    MOST_ANSWER, MOST_CONTENT, MOST_ERROR, MOST_FIELDS, MOST_HEAD, MOST_TRIES,
};

/// Returns the limits of a head, of chunk extensions and of trailers.
pub(crate) fn limits() -> Limits
    ensures { result ≡ limits }
{
    Limits {
        max_head_len: MOST_HEAD,
        max_extensions_len: MOST_HEAD,
        max_trailers_len: MOST_HEAD,
    }
}

/// The law of what the limits are.
pub fn limits_are_these()
    ensures head { MOST_HEAD ≡ 16384 }
    ensures fields { MOST_FIELDS ≡ 64 }
    ensures content { MOST_CONTENT ≡ 8388608 }
    ensures answer { MOST_ANSWER ≡ 16842752 }
    ensures error { MOST_ERROR ≡ 65536 }
    ensures tries { MOST_TRIES ≡ 1024 }
{}
