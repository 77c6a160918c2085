//! Lines and words of a listing: numbers, operations, kinds of misses.

ghost use Rattle.std.specs.Prelude.{◌≡◌, ◌<◌, ◌≤◌, ◌∷◌, [], MatchOption, length, true};
ghost use Rattle.std.specs.Char.{is_ascii_digit};
ghost use Rattle.std.specs.List.{list_all};
ghost use Rattle.std.specs.Str.{bytes_eq};
ghost use Rattle.spec_machine.specs.ListingWords.{is_numeral, kind_named, later, number_in, operation_named, parts, value_of, words};

use avro_bytes::MismatchKind;
use isa::{OPERATIONS, Operation};
use memchr::memchr;
pub use spec_machine::KINDS;

/// Returns whether bytes are those of a text.
pub fn is_text(bytes: &[u8], text: &str) -> bool
    ensures { result ≡ bytes_eq bytes.now text.now }
{
    bytes == text.as_bytes()
}

/// Returns the first line, without its line feed, and what follows it; `None` where no line is ended.
pub fn split_line(text: &[u8]) -> Option<(&[u8], &[u8])>
    ensures { MatchOption result (parts 10 text.now ≡ text.now ∷ [])
        (λ p. (parts 10 text.now ≡ p.0.now ∷ parts 10 p.1.now) × (length p.1.now < length text.now)) }
{
    match memchr(b'\n', text) {
        Some(end) => Some((&text[..end], &text[end + 1..])),
        None => None,
    }
}

/// Returns the first word, and what follows it from a space on.
pub fn split_word(line: &[u8]) -> (&[u8], &[u8])
    ensures words { words line.now ≡ result.0.now ∷ later result.1.now }
    ensures len { length result.1.now ≤ length line.now }
{
    match memchr(b' ', line) {
        Some(end) => line.split_at(end),
        None => line.split_at(line.len()),
    }
}

/// Returns the first word after a space, and what follows it from a space on; `None` where nothing is left.
#[tactic(auto, unfolding(spec_machine::specs::ListingWords::later))]
pub fn next_word(rest: &[u8]) -> Option<(&[u8], &[u8])>
    ensures { MatchOption result (later rest.now ≡ [])
        (λ p. (later rest.now ≡ p.0.now ∷ later p.1.now) × (length p.1.now < length rest.now)) }
{
    match rest {
        [] => None,
        [_, line @ ..] => Some(split_word(line)),
    }
}

/// Returns whether all bytes of a word are digits.
fn are_digits(word: &[u8]) -> bool
    ensures { result ≡ list_all is_ascii_digit word.now }
{
    word.iter().all(|byte| byte.is_ascii_digit())
}

/// Returns whether a word is a number without leading zeros.
pub fn is_numeral(word: &[u8]) -> bool
    ensures { result ≡ is_numeral word.now }
{
    match word {
        [] => false,
        [first, rest @ ..] => are_digits(word) && (*first != b'0' || rest.is_empty()),
    }
}

/// Returns the number that digits write, or `u32::MAX` where it is greater.
fn value_of(digits: &[u8]) -> u32
    requires { list_all is_ascii_digit digits.now ≡ true }
    ensures { result ≡ value_of digits.now }
{
    let mut value = 0u32;
    for digit in digits {
        value = value
            .saturating_mul(10)
            .saturating_add((*digit - b'0') as u32);
    }
    value
}

/// Returns the number that a word is, or `u32::MAX` where it is greater; `None` where the word is no number without
/// leading zeros.
#[tactic(auto, unfolding(spec_machine::specs::ListingWords::number_in))]
pub fn number_of(word: &[u8]) -> Option<u32>
    ensures { result ≡ number_in word.now }
{
    if is_numeral(word) {
        Some(value_of(word))
    } else {
        None
    }
}

/// Returns the kind of a miss that has this name; `None` where no kind has it.
#[tactic(auto, unfolding(spec_machine::specs::ListingWords::kind_named))]
pub fn kind_named(word: &[u8]) -> Option<MismatchKind>
    ensures { result ≡ kind_named word.now }
{
    KINDS
        .iter()
        .copied()
        .find(|kind| is_text(word, kind.name()))
}

/// Returns the operation that has this name; `None` where no operation has it.
#[tactic(auto, unfolding(spec_machine::specs::ListingWords::operation_named))]
pub fn operation_named(word: &[u8]) -> Option<Operation>
    ensures { result ≡ operation_named word.now }
{
    OPERATIONS
        .iter()
        .copied()
        .find(|operation| is_text(word, operation.name()))
}
