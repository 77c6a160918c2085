//! The head of a request, read until it is whole or can no longer become one; its body, and how long that is.

ghost use Rattle.std.specs.Prelude.{◌<◌, ◌^◌, ◌≡◌, ◌≢◌, ◌≤◌, ◌⊎◌, All, Err, IfErr, IfOk, IfSome, None, [], length, map, min, option_map, vec_len};
ghost use Rattle.gateway_requests.specs.Front.{IsFrontOf, TakesMore};
ghost use Rattle.std.specs.Io.{ReadsAtMost};
ghost use Rattle.std.specs.Io.KnownBytes.{ReadConsumes};
ghost use Rattle.gateway_requests.specs.RequestBody.{IsBodyOf};
ghost use Rattle.httparse.specs.Spans.{IsHeaderWithin, header_bytes};
ghost use Rattle.spec_service.specs.ContentLength.{declared_length, length_after, length_from};
ghost use Rattle.spec_service.specs.Digits.{is_number, number, significant_digits};
ghost use Rattle.std.specs.Char.{is_ascii_digit};
ghost use Rattle.std.specs.List.{list_all};

use crate::limits::{MOST_FIELDS, MOST_HEAD, MOST_TRIES};
use crate::read_error::ReadError;
use httparse::Status;
use httparse::spans::{HeaderSpan, RequestSpans, parse_request};
use std::alloc::Global;
use std::io::{ErrorKind, Read};

/// What is at the front of a request.
#[derive(Clone, Copy, Debug, PartialEq, Eq)]
pub enum Front {
    /// A head, by where its parts are in the buffer, and how many bytes were received: those after the head are of
    /// the body.
    Head {
        spans: RequestSpans,
        received: usize,
    },
    /// No head within the limits, whatever might follow.
    NoHead,
}

/// Reads once after the bytes that were received. Returns how many more came, 0 only where the reader has ended.
fn read_more<R: Read>(
    reader: &mut R,
    buffer: &mut [u8],
    received: usize,
) -> Result<usize, ReadError>
    requires room { received < length buffer.old }
    ensures taken { IfOk result
        (TakesMore (R.remaining reader.old) (R.remaining reader.new) buffer.old buffer.new received) }
    ensures fault { IfErr result (λ e. e ≡ ReadError.Failed) }
{
    let count = read_once(reader, &mut buffer[received..])?;
    Ok(count)
}

/// Reads until the head is whole or the bytes can no longer become one, which is reported at once (RFC 9112, sections
/// 2 to 5, as `httparse` has them).
///
/// The buffer receives all that was read, `headers` where the fields are. `Closed` where no byte came, `Failed` where
/// the reader failed.
pub fn read_head<R: Read>(
    reader: &mut R,
    buffer: &mut [u8],
    headers: &mut [HeaderSpan],
) -> Result<Front, ReadError>
    requires room { length buffer.old ≡ MOST_HEAD }
    requires fields { length headers.old ≡ MOST_FIELDS }
    ensures front { IfOk result (IsFrontOf (R.remaining reader.old) (R.remaining reader.new) buffer.new headers.new) }
    ensures closed { result ≡ Err ReadError.Closed → IfSome (R.remaining reader.old) (λ input. input ≡ []) }
    ensures fault { IfErr result (λ e. (e ≡ ReadError.Closed) ⊎ (e ≡ ReadError.Failed)) }
{
    let mut received = 0;
    while received < buffer.len() {
        let count = read_more(reader, buffer, received)?;
        if count == 0 {
            if received == 0 {
                return Err(ReadError::Closed);
            }
            return Ok(Front::NoHead);
        }
        received += count;
        match parse_request(&buffer[..received], headers) {
            Ok(Status::Complete(spans)) => return Ok(Front::Head { spans, received }),
            Ok(Status::Partial) => {}
            Err(_) => return Ok(Front::NoHead),
        }
    }
    Ok(Front::NoHead)
}

/// Reads once into the buffer, and returns how many bytes came, 0 only where the reader has ended or the buffer has
/// no room. `Failed` where the reader fails, or is interrupted `MOST_TRIES` times.
pub(crate) fn read_once<R: Read>(reader: &mut R, buffer: &mut [u8]) -> Result<usize, ReadError>
    ensures room { length buffer.new ≡ length buffer.old }
    ensures bound { ReadsAtMost result buffer.new }
    ensures bytes { ReadConsumes (R.remaining reader.old) (R.remaining reader.new) result buffer.new }
    ensures fault { IfErr result (λ e. e ≡ ReadError.Failed) }
{
    for _try in 0..MOST_TRIES {
        match reader.read(buffer) {
            Ok(count) => return Ok(count),
            Err(error) if error.kind() == ErrorKind::Interrupted => {}
            Err(_) => return Err(ReadError::Failed),
        }
    }
    Err(ReadError::Failed)
}

/// How many bytes a reader is asked for at once.
const CHUNK: usize = 4_096;

/// Reads a body of `size` bytes: those that were received after the head, and the rest from the reader. `None` where
/// the reader ends before.
///
/// `Failed` where the reader failed, which is not asked where the whole body was received; `NoMemory` where memory
/// ran out.
pub fn read_body<R: Read>(
    alloc: Global,
    reader: &mut R,
    received: &[u8],
    size: usize,
) -> Result<Option<Vec<u8>>, ReadError>
    ensures body { IfOk result (λ body. IsBodyOf (R.remaining reader.old) received.now size
        (option_map (λ v. v.items) body)) }
    ensures size { IfOk result (λ body. IfSome body (λ v. vec_len v ≤ size)) }
    ensures fault { IfErr result (λ e. ((e ≡ ReadError.Failed) × (length received.now < size))
        ⊎ (e ≡ ReadError.NoMemory)) }
{
    let mut body = received.to_vec(alloc)?;
    let mut chunk = [0u8; CHUNK];
    while body.len() < size {
        let wanted = (size - body.len()).min(CHUNK);
        match read_once(reader, &mut chunk[..wanted])? {
            0 => return Ok(None),
            count => body.extend_from_slice(&chunk[..count])?,
        }
    }
    body.truncate(size);
    Ok(Some(body))
}

/// Returns the length after one more field, as its significant digits. `None` where the fields name no one length.
fn length_after<'a>(
    found: Option<&'a [u8]>,
    name: &[u8],
    value: &'a [u8],
) -> Option<Option<&'a [u8]>>
    ensures { option_map (option_map (λ d. d.now)) result
        ≡ length_after (option_map (λ d. d.now) found.entry) (name.now, value.now) }
{
    if name.eq_ignore_ascii_case(b"transfer-encoding") {
        return None;
    }
    if !name.eq_ignore_ascii_case(b"content-length") {
        return Some(found);
    }
    if !is_number(value) {
        return None;
    }
    let digits = significant_digits(value);
    match found {
        None => Some(Some(digits)),
        Some(before) if before == digits => Some(Some(before)),
        Some(_) => None,
    }
}

/// Returns how many bytes the body has, or `most` where it has more: the fields are in `bytes` where `headers` says.
/// `None` where they name no one length (RFC 9112, section 6).
pub fn content_length(bytes: &[u8], headers: &[HeaderSpan], most: u64) -> Option<u64>
    requires within { All (IsHeaderWithin (length bytes.now)) headers.now }
    requires most { most < 2 ^ 40 }
    ensures { result
        ≡ option_map (λ digits. min (number digits) most)
        (declared_length (map (header_bytes bytes.now) headers.now)) }
{
    let mut found: Option<&[u8]> = None;
    for header in headers {
        found = length_after(found, header.name.of(bytes), header.value.of(bytes))?;
    }
    match found {
        None => Some(0),
        Some(digits) => Some(number_up_to(digits, most)),
    }
}

/// Returns whether each byte is a digit.
fn are_digits(text: &[u8]) -> bool
    ensures { result ≡ list_all is_ascii_digit text.now }
{
    text.iter().all(|byte| byte.is_ascii_digit())
}

/// Returns whether a text is one number: digits, and at least one.
pub fn is_number(text: &[u8]) -> bool
    ensures { result ≡ is_number text.now }
{
    text.len() > 0 && are_digits(text)
}

/// Returns the digits from the first that is no zero: none of the number 0.
pub(crate) fn significant_digits(digits: &[u8]) -> &[u8]
    ensures { result.now ≡ significant_digits digits.now }
{
    let mut zeros = 0;
    while zeros < digits.len() && digits[zeros] == b'0' {
        zeros += 1;
    }
    &digits[zeros..]
}

/// Returns the number that digits spell, or `most` where it is greater.
pub fn number_up_to(digits: &[u8], most: u64) -> u64
    requires { most < 2 ^ 40 }
    ensures { result ≡ min (number digits.now) most }
{
    let mut value: u64 = 0;
    for digit in digits {
        value = (value * 10 + digit.saturating_sub(b'0') as u64).min(most);
    }
    value
}
