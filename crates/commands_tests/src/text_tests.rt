//! Texts of each length up to some, between other bytes, with a character or a byte of its own at each place.

use crate::again::{Pair, outcome, pair_of, transcoder};
use machine::{Outcome, Transcoder};
use std::alloc::{AllocError, Global};
use std::process::Abort;
use std::test::Fail;

/// A number, a text and another number.
const AMONG_NUMBERS: &str =
    r#"{"type":"record","name":"T","fields":[{"name":"n","type":"long"},{"name":"t","type":"string"},{"name":"m","type":"long"}]}"#;

/// The greatest length that one byte encodes.
const MOST_LETTERS: u8 = 63;

/// Returns the bytes of a payload, of which the text has `letters` letters `a`.
fn payload(
    alloc: Global,
    before: &[u8],
    letters: u8,
    behind: &[u8],
) -> Result<Vec<u8>, AllocError> {
    let mut payload = Vec::new(alloc);
    payload.extend_from_slice(before)?;
    payload.push(letters.wrapping_mul(2))?;
    for _ in 0..letters {
        payload.push(b'a')?;
    }
    payload.extend_from_slice(behind)?;
    Ok(payload)
}

/// Returns whether the outcome of a payload is the payload itself.
fn is_kept(transcoder: &mut Transcoder<'_>, payload: &[u8]) -> bool {
    match outcome(transcoder, payload) {
        Ok(Outcome::Done(bytes)) => bytes.as_slice() == payload,
        _ => false,
    }
}

/// Returns whether the text of a payload, which begins at an offset, is reported to be none.
fn is_bad_text(transcoder: &mut Transcoder<'_>, payload: &[u8], begins: usize) -> bool {
    match outcome(transcoder, payload) {
        Ok(Outcome::Malformed { kind, at }) => kind.name() == "BadText" && at == begins,
        _ => false,
    }
}

/// Returns whether a byte in place of a letter makes the text none, wherever it is, and no letter does.
fn each_place_counts(
    transcoder: &mut Transcoder<'_>,
    payload: &mut Vec<u8>,
    begins: usize,
    letters: u8,
) -> bool {
    for letter in 0..letters {
        let place = begins.saturating_add(letter as usize);
        for byte in [b'b', 0x7f, 0x80, 0xc3, 0xff] {
            if place >= payload.len() {
                return false;
            }
            payload[place] = byte;
            let is_right = if byte < 0x80 {
                is_kept(transcoder, payload)
            } else {
                is_bad_text(transcoder, payload, begins)
            };
            payload[place] = b'a';
            if !is_right {
                return false;
            }
        }
    }
    true
}

/// Returns whether a character of two bytes is kept, wherever it is.
fn each_character_counts(
    transcoder: &mut Transcoder<'_>,
    payload: &mut Vec<u8>,
    begins: usize,
    letters: u8,
) -> bool {
    for letter in 1..letters {
        let place = begins.saturating_add(letter as usize);
        if place == 0 || place >= payload.len() {
            return false;
        }
        payload[place - 1] = 0xc3;
        payload[place] = 0xa9;
        let is_right = is_kept(transcoder, payload);
        payload[place - 1] = b'a';
        payload[place] = b'a';
        if !is_right {
            return false;
        }
    }
    true
}

/// Asserts that texts of each length come out right between these bytes.
fn assert_lengths(
    rt: &(impl Abort + AllocGlobal),
    transcoder: &mut Transcoder<'_>,
    before: &[u8],
    behind: &[u8],
) -> Result<(), AllocError> {
    for letters in 0..=MOST_LETTERS {
        let mut payload = payload(rt.alloc(), before, letters, behind)?;
        let begins = before.len().saturating_add(1);
        let places = each_place_counts(transcoder, &mut payload, begins, letters);
        let characters = each_character_counts(transcoder, &mut payload, begins, letters);
        assert!(rt; places && characters, "{letters}");
    }
    Ok(())
}

/// Asserts that texts of each length come out right between numbers of a few bytes and of many.
fn assert_among_numbers(
    rt: &(impl Abort + AllocGlobal),
    transcoder: &mut Transcoder<'_>,
) -> Result<(), AllocError> {
    let numbers: [&[u8]; 3] = [
        &[0x02],
        &[0xff, 0xff, 0x03],
        &[0xfe, 0xff, 0xff, 0xff, 0xff, 0xff, 0xff, 0xff, 0xff, 0x01],
    ];
    for before in numbers {
        for behind in numbers {
            assert_lengths(rt, transcoder, before, behind)?;
        }
    }
    Ok(())
}

/// Asserts what `assert_among_numbers` does, with a transcoder of a pair of schemas.
fn assert_pair(rt: &(impl Abort + AllocGlobal), pair: &Pair) -> Result<(), AllocError> {
    match transcoder(rt.alloc(), pair) {
        Ok(made) => {
            let mut transcoder = made;
            assert_among_numbers(rt, &mut transcoder)
        }
        Err(_) => Err(AllocError),
    }
}

#[test]
fn each_place_of_a_short_text_counts(rt: HostRuntime) -> Result<(), Fail> {
    let pair = pair_of(rt.alloc(), AMONG_NUMBERS, AMONG_NUMBERS)?;
    Ok(assert_pair(&rt, &pair)?)
}
