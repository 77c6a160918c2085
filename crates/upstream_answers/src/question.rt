//! What is sent to ask for the schema of an id.

ghost use Rattle.std.specs.Prelude.{◌≡◌, IfOk, string_bytes};
ghost use Rattle.spec_service.specs.UpstreamQuestion.{authorization_text, question_text, request_line_text};

pub use spec_service::Place;
use std::alloc::{AllocError, Global};

/// The content that is asked for (Confluent Schema Registry API).
const MEDIA_TYPE: &str = "application/vnd.schemaregistry.v1+json";

/// Returns the field with the credentials, with the end of its line: nothing where the credentials are empty (RFC
/// 7617, section 2).
fn authorization_of(alloc: Global, credentials: &str) -> Result<String, AllocError>
    ensures { IfOk result (λ text. string_bytes text ≡ authorization_text credentials.now) }
{
    if credentials.is_empty() {
        return Ok(String::new(alloc));
    }
    Ok(format!(in alloc; "authorization: Basic {credentials}\r\n")?)
}

/// Returns the first line of the request for the schema of an id, with its end (RFC 9112, section 3).
fn request_line(alloc: Global, prefix: &str, id: u32) -> Result<String, AllocError>
    ensures { IfOk result (λ text. string_bytes text ≡ request_line_text prefix.now id) }
{
    Ok(format!(in alloc; "GET {prefix}/schemas/ids/{id} HTTP/1.1\r\n")?)
}

/// Returns the whole request for the schema of an id: it has no body, and asks for the connection to be closed after
/// the answer (RFC 9112, sections 3 and 9.6).
pub fn question_of(alloc: Global, place: &Place, id: u32) -> Result<String, AllocError>
    ensures { IfOk result (λ text. string_bytes text ≡ question_text place.now id) }
{
    let host = place.host.as_str();
    let line = request_line(alloc, place.prefix.as_str(), id)?;
    let line = line.as_str();
    let authorization = authorization_of(alloc, place.credentials.as_str())?;
    let authorization = authorization.as_str();
    Ok(format!(in alloc;
        "{line}host: {host}\r\naccept: {MEDIA_TYPE}\r\nconnection: close\r\n{authorization}\r\n"
    )?)
}
