//! The words of the command line.

use crate::error::BenchError;
use std::rt::Env;

/// How many sessions each way runs where no argument says it.
const SESSIONS: u64 = 200_000;

/// How many it runs at most.
const MOST_SESSIONS: u64 = 1_000_000_000;

/// Returns the number of sessions that a word says.
fn number_of(word: &str) -> Result<u64, BenchError> {
    match word.parse::<u64>() {
        Ok(sessions) if (1..=MOST_SESSIONS).contains(&sessions) => Ok(sessions),
        _ => Err(BenchError::Words),
    }
}

/// Returns the number of sessions that words ask for, of which the first is the program's name.
fn sessions_of(words: &[String]) -> Result<u64, BenchError> {
    match (words.get(1), words.get(2)) {
        (None, _) => Ok(SESSIONS),
        (Some(word), None) => number_of(word.as_str()),
        _ => Err(BenchError::Words),
    }
}

/// Returns the number of sessions that the command line asks for.
pub(crate) fn sessions(rt: &(impl Env + AllocGlobal)) -> Result<u64, BenchError> {
    let Ok(words) = std::env::args(rt) else {
        return Err(BenchError::Words);
    };
    let words: Vec<String> = words.collect(rt.alloc())?;
    sessions_of(&words)
}
