//! The words of a line.

ghost use Rattle.std.specs.Prelude.{◌≡◌, ◌∷◌, [], MatchOption, option_map};
ghost use Rattle.spec_machine.specs.ListingParts.{at_end};
ghost use Rattle.spec_machine.specs.ListingWords.{words};
ghost use Rattle.spec_lines.specs.Words.{named, only_word, two_words, word_and_text, words_of_text};
ghost use Rattle.command_io.specs.Words.{words_left};

/// Returns the first word, and what follows the space after it; `None` where no space does.
pub(crate) fn split_word(line: &str) -> (&str, Option<&str>)
    ensures { words line.now ≡ result.0.now ∷ words_left result.1 }
{
    match line.split_once(' ') {
        Some((word, rest)) => (word, Some(rest)),
        None => (line, None),
    }
}

/// Returns the first of the words that are left, and what is left after it; `None` where no word is left.
pub(crate) fn next_word(left: Option<&str>) -> Option<(&str, Option<&str>)>
    ensures { MatchOption result (words_left left.entry ≡ [])
        (λ p. words_left left.entry ≡ p.0.now ∷ words_left p.1) }
{
    match left {
        Some(line) => Some(split_word(line)),
        None => None,
    }
}

/// Returns the first word of a line, and what is left after it; `None` where the line is no text.
pub(crate) fn first_word(line: &[u8]) -> Option<(&str, Option<&str>)>
    ensures { MatchOption result (words_of_text line.now ≡ [])
        (λ p. words_of_text line.now ≡ p.0.now ∷ words_left p.1) }
{
    match std::str::from_utf8(line) {
        Ok(text) => Some(split_word(text)),
        Err(_) => None,
    }
}

/// Returns a thing, where no word is left; else `None`.
pub(crate) fn at_end<T: Copy>(thing: T, left: Option<&str>) -> Option<T>
    ensures { result ≡ at_end thing (words_left left.entry) }
{
    match next_word(left) {
        Some(_) => None,
        None => Some(thing),
    }
}

/// Returns the one word that is left; `None` where there is none, or more than one.
#[tactic(auto, unfolding(spec_lines::specs::Words::only_word))]
pub(crate) fn only_word(left: Option<&str>) -> Option<&str>
    ensures { option_map (λ w. w.now) result ≡ only_word (words_left left.entry) }
{
    let (word, left) = next_word(left)?;
    at_end(word, left)
}

/// Returns a word; `None` where it is empty.
fn named(word: &str) -> Option<&str>
    ensures { option_map (λ w. w.now) result ≡ named word.now }
{
    if word.is_empty() { None } else { Some(word) }
}

/// Returns the two words that are left, neither of them empty; `None` where other words are left.
#[tactic(auto, unfolding(spec_lines::specs::Words::two_words))]
pub(crate) fn two_words(left: Option<&str>) -> Option<(&str, &str)>
    ensures { option_map (λ p. (p.0.now, p.1.now)) result ≡ two_words (words_left left.entry) }
{
    let (word, left) = next_word(left)?;
    let first = named(word)?;
    let last = only_word(left)?;
    let second = named(last)?;
    Some((first, second))
}

/// Returns the next word, which is not empty, and all after the space that follows it; `None` where these are not
/// left.
#[tactic(auto, unfolding(spec_lines::specs::Words::word_and_text))]
pub(crate) fn word_and_text(left: Option<&str>) -> Option<(&str, &str)>
    ensures { option_map (λ p. (p.0.now, p.1.now)) result ≡ word_and_text (words_left left.entry) }
{
    let (word, left) = next_word(left)?;
    let first = named(word)?;
    let text = left?;
    Some((first, text))
}
