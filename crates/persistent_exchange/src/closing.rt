//! The answer after which a connection is closed, whatever its client asked for.

ghost use Rattle.std.specs.Prelude.{◌≡◌, ◌++◌, IfOk, OnOk};
ghost use Rattle.persistent_exchange.specs.Closing.{IsClosing, closing_text, date_line};

use gateway_requests::{Answer, AnswerBytes, Fault};
use httpdate::HttpDate;
use std::alloc::{AllocError, Global};

/// The number of bytes of the empty line that ends a head.
const EMPTY_LINE: usize = 2;

/// Appends the line of the field with a date, where there is one (RFC 9110, section 6.6.1). The error is that memory
/// ran out.
fn put_date(date: Option<HttpDate>, bytes: &mut Vec<u8>) -> Result<(), AllocError>
    ensures { OnOk result (bytes.new.items ≡ bytes.old.items ++ date_line date) }
{
    if let Some(date) = date {
        bytes.extend_from_slice(b"date: ")?;
        bytes.extend_from_slice(&date.to_bytes())?;
        bytes.extend_from_slice(b"\r\n")?;
    }
    Ok(())
}

/// Returns the bytes of an answer that ends a connection, with a date; without its content where HEAD asked. The
/// error is that memory ran out.
fn closing_bytes(
    alloc: Global,
    answer: &AnswerBytes,
    date: Option<HttpDate>,
    is_head: bool,
) -> Result<Vec<u8>, AllocError>
    ensures { IfOk result (λ bytes. bytes.items ≡ closing_text answer.now date is_head) }
{
    let fields = answer.head.saturating_sub(EMPTY_LINE);
    let mut bytes = answer.front[..fields].to_vec(alloc)?;
    put_date(date, &mut bytes)?;
    bytes.extend_from_slice(b"\r\n")?;
    if !is_head {
        bytes.extend_from_slice(&answer.front[answer.head..])?;
        bytes.extend_from_slice(&answer.rest)?;
    }
    Ok(bytes)
}

/// Returns the bytes of a fault's answer that ends a connection, as `closing_text` has them. The error is that memory
/// ran out.
pub(crate) fn closing_fault(
    alloc: Global,
    fault: Fault,
    date: Option<HttpDate>,
    is_head: bool,
) -> Result<Vec<u8>, AllocError>
    ensures { IfOk result (λ bytes. IsClosing fault date is_head bytes.items) }
{
    let answer = Answer::Fault(fault).into_bytes(alloc)?;
    let bytes = closing_bytes(alloc, &answer, date, is_head)?;
    Ok(bytes)
}
