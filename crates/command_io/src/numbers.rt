//! The numbers in a line.

ghost use Rattle.std.specs.Prelude.{◌≡◌, ◌^◌, option_map};
ghost use Rattle.spec_lines.specs.Words.{first_number, last_number, last_rows, number_and_rows, number_below, two_numbers};
ghost use Rattle.command_io.specs.Words.{words_left};

use crate::words::{next_word, only_word};
use assembler::is_numeral;

/// Returns the number below 2^32 that a word is; `None` where it is none.
fn number_of(word: &str) -> Option<u32>
    ensures { result ≡ number_below (2 ^ 32) word.now }
{
    if is_numeral(word.as_bytes()) {
        word.parse().ok()
    } else {
        None
    }
}

/// Returns the number below 2^64 that a word is; `None` where it is none.
fn rows_of(word: &str) -> Option<u64>
    ensures { result ≡ number_below (2 ^ 64) word.now }
{
    if is_numeral(word.as_bytes()) {
        word.parse().ok()
    } else {
        None
    }
}

/// Returns the first number, and what is left after it; `None` where the first word is no number.
#[tactic(auto, unfolding(spec_lines::specs::Words::first_number))]
pub(crate) fn first_number(left: Option<&str>) -> Option<(u32, Option<&str>)>
    ensures { option_map (λ p. (p.0, words_left p.1)) result ≡ first_number (words_left left.entry) }
{
    let (word, left) = next_word(left)?;
    let number = number_of(word)?;
    Some((number, left))
}

/// Returns the one number that is left; `None` where other words are left.
#[tactic(auto, unfolding(spec_lines::specs::Words::last_number))]
pub(crate) fn last_number(left: Option<&str>) -> Option<u32>
    ensures { result ≡ last_number (words_left left.entry) }
{
    let word = only_word(left)?;
    number_of(word)
}

/// Returns the two numbers that are left; `None` where other words are left.
#[tactic(auto, unfolding(spec_lines::specs::Words::two_numbers))]
pub(crate) fn pair(left: Option<&str>) -> Option<(u32, u32)>
    ensures { result ≡ two_numbers (words_left left.entry) }
{
    let (first, left) = first_number(left)?;
    let second = last_number(left)?;
    Some((first, second))
}

/// Returns the one number of rows that is left; `None` where other words are left.
#[tactic(auto, unfolding(spec_lines::specs::Words::last_rows))]
pub(crate) fn last_rows(left: Option<&str>) -> Option<u64>
    ensures { result ≡ last_rows (words_left left.entry) }
{
    let word = only_word(left)?;
    rows_of(word)
}

/// Returns the number and the number of rows that are left; `None` where other words are left.
#[tactic(auto, unfolding(spec_lines::specs::Words::number_and_rows))]
pub(crate) fn number_and_rows(left: Option<&str>) -> Option<(u32, u64)>
    ensures { result ≡ number_and_rows (words_left left.entry) }
{
    let (number, left) = first_number(left)?;
    let rows = last_rows(left)?;
    Some((number, rows))
}
