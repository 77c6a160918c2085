//! Each row's answer is the one that is written below its schemas.

mod rows;

use rows::{CHECKS, EXPLANATIONS, NODES, PAIR, PAIR_AS_JSON};
use schema_report::{Form, Level, check_report, explain_report, nodes_report};
use std::alloc::{AllocError, Global};
use std::test::Fail;

/// How many bytes the text of a schema may have.
const MOST_TEXT: usize = 262_144;

/// Returns what is answered of the nodes of a schema.
fn nodes(alloc: Global, line: &str) -> Result<String, AllocError> {
    Ok(nodes_report(alloc, line.as_bytes())?.text)
}

/// Returns what is answered of two schemas at the level of a name.
fn check(alloc: Global, level: &str, first: &str, second: &str) -> Result<String, AllocError> {
    let level = match level {
        "FORWARD" => Level::Forward,
        "FULL" => Level::Full,
        _ => Level::Backward,
    };
    Ok(check_report(alloc, level, first.as_bytes(), second.as_bytes())?.text)
}

/// Returns what becomes of messages between two schemas.
fn explanation(alloc: Global, form: Form, first: &str, second: &str) -> Result<String, AllocError> {
    Ok(explain_report(alloc, form, first.as_bytes(), second.as_bytes())?.text)
}

#[test]
fn nodes_are_listed(rt: HostRuntime) -> Result<(), Fail> {
    for row in NODES.split("\n\n") {
        let (line, want) = row.split_once("\n").unwrap_or((row, ""));
        let text = nodes(rt.alloc(), line)?;
        assert_eq!(rt; text.trim_end(), want.trim_end(), "{line}");
    }
    Ok(())
}

/// Returns a text, and after it the byte `a` this many times, and another text.
fn with_letters(
    alloc: Global,
    before: &str,
    count: usize,
    after: &str,
) -> Result<String, AllocError> {
    let letters = "a".repeat(alloc, count)?;
    format!(in alloc; "{before}{letters}{after}")
}

#[test]
fn lines_that_are_too_long_have_the_place_of_the_root(rt: HostRuntime) -> Result<(), Fail> {
    let too_large = "bad schema 1 TooLarge at /\n";
    let brackets = "[".repeat(rt.alloc(), 300_000)?;
    assert_eq!(rt; nodes(rt.alloc(), &brackets)?.as_str(), too_large);
    let text = with_letters(rt.alloc(), "\"", 300_000, "\"")?;
    assert_eq!(rt; nodes(rt.alloc(), &text)?.as_str(), too_large);
    let one_more = with_letters(rt.alloc(), "\"", MOST_TEXT - 1, "\"")?;
    assert_eq!(rt; nodes(rt.alloc(), &one_more)?.as_str(), too_large);
    Ok(())
}

#[test]
fn a_line_of_the_greatest_length_has_its_word(rt: HostRuntime) -> Result<(), Fail> {
    let letters = MOST_TEXT - 2;
    let line = with_letters(rt.alloc(), "\"", letters, "\"")?;
    let want = with_letters(rt.alloc(), "bad schema 1 Unknown at /: ", letters, "\n")?;
    assert_eq!(rt; line.len(), MOST_TEXT);
    assert_eq!(rt; nodes(rt.alloc(), &line)?.as_str(), want.as_str());
    let brackets = "[".repeat(rt.alloc(), MOST_TEXT)?;
    assert_eq!(rt;
        nodes(rt.alloc(), &brackets)?.as_str(),
        "bad schema 1 NotJson\n"
    );
    Ok(())
}

#[test]
fn pairs_are_checked(rt: HostRuntime) -> Result<(), Fail> {
    for row in CHECKS.split("\n\n") {
        let (level, rest) = row.split_once("\n").unwrap_or((row, ""));
        let (first, rest) = rest.split_once("\n").unwrap_or((rest, ""));
        let (second, want) = rest.split_once("\n").unwrap_or((rest, ""));
        let text = check(rt.alloc(), level, first, second)?;
        assert_eq!(rt; text.trim_end(), want.trim_end(), "{first} {second}");
    }
    Ok(())
}

#[test]
fn messages_are_explained(rt: HostRuntime) -> Result<(), Fail> {
    for row in EXPLANATIONS.split("\n\n") {
        let (first, rest) = row.split_once("\n").unwrap_or((row, ""));
        let (second, want) = rest.split_once("\n").unwrap_or((rest, ""));
        let text = explanation(rt.alloc(), Form::Tree, first, second)?;
        assert_eq!(rt; text.trim_end(), want.trim_end(), "{first} {second}");
    }
    Ok(())
}

#[test]
fn a_pair_is_explained_as_json(rt: HostRuntime) -> Result<(), Fail> {
    let text = explanation(rt.alloc(), Form::Json, PAIR[0], PAIR[1])?;
    assert_eq!(rt; text.as_str(), PAIR_AS_JSON);
    Ok(())
}

#[test]
fn one_pair_of_nodes_is_explained(rt: HostRuntime) -> Result<(), Fail> {
    for (writer, reader, want) in [
        (
            2,
            1,
            "writer 2 int /fields/0/type/0\nreader 1 long /fields/0/type\nbranch 0, int: promoted, int to long\n",
        ),
        (
            3,
            1,
            "writer 3 string /fields/0/type/1\nreader 1 long /fields/0/type\nbranch 1, string: mismatch NoMatch 3 1\n",
        ),
        (
            0,
            0,
            "writer 0 record T /\nreader 0 record T /\nmessage: record T\n",
        ),
        (
            9,
            0,
            "no node 9 in the writer's schema\nreader 0 record T /\n",
        ),
        (
            0,
            2,
            "writer 0 record T /\nno node 2 in the reader's schema\n",
        ),
    ] {
        let form = Form::Pair { writer, reader };
        let text = explanation(rt.alloc(), form, PAIR[0], PAIR[1])?;
        assert_eq!(rt; text.as_str(), want);
    }
    Ok(())
}
