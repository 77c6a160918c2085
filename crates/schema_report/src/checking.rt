//! Why a reader cannot read all that a writer writes, a line for each bad pair (Avro 1.11, "Schema Resolution").

ghost use Rattle.std.specs.Prelude.{◌≡◌, ◌<◌, ◌++◌, codes, length, slice_get, string_bytes, IfOk, OnOk};
ghost use Rattle.spec_avro.specs.declared.mismatch.MismatchKind.TheVariants.{NoMatch, NoBranch};
ghost use Rattle.schema_report.specs.Checking.{AreInside, IsChecked, IsInside, about, bad_line, bad_lines, field_words, lacking_words, missing_words, numbers, path_at, symbol_words};

use crate::listing::push_path;
use crate::types::{push_beside, push_type};
use avro_bytes::MismatchKind;
use avro_schema_paths::Step;
use avro_types::{Kind, Nodes};
use schema_check::{BadPair, all_lacking, all_missing, check_pair};
use std::alloc::{AllocError, Global};
use std::fmt::Write;

/// One side of a check: a schema, and for each of its nodes its path.
#[derive(Clone, Copy)]
pub(crate) struct Side<'s> {
    pub(crate) nodes: &'s Nodes,
    pub(crate) paths: &'s [Vec<Step>],
}

/// Appends the name of the field at a position of a record, after a space; nothing where there is none.
fn push_field(
    output: &mut String,
    nodes: &Nodes,
    node: usize,
    position: usize,
) -> Result<(), AllocError>
    requires { node < length nodes.now }
    ensures { OnOk result (string_bytes output.new
        ≡ string_bytes output.old ++ field_words (slice_get nodes.now node) position) }
{
    match nodes.kind(node) {
        Kind::Record { fields, .. } if position < fields.len() => {
            output.push_str(" ")?;
            output.push_str(&fields[position].name)
        }
        _ => Ok(()),
    }
}

/// Appends the symbol at a position of an enum, after a space; nothing where there is none.
fn push_symbol(
    output: &mut String,
    nodes: &Nodes,
    node: usize,
    position: usize,
) -> Result<(), AllocError>
    requires { node < length nodes.now }
    ensures { OnOk result (string_bytes output.new
        ≡ string_bytes output.old ++ symbol_words (slice_get nodes.now node) position) }
{
    match nodes.kind(node) {
        Kind::Enum { symbols, .. } => match symbols.get(position) {
            Some(symbol) => {
                output.push_str(" ")?;
                output.push_str(symbol)
            }
            None => Ok(()),
        },
        _ => Ok(()),
    }
}

/// A pair of nodes: of a writer's schema and of a reader's.
#[derive(Clone, Copy)]
struct Pair<'s> {
    writer: &'s Nodes,
    w: usize,
    reader: &'s Nodes,
    r: usize,
}

/// Appends the names of the fields of a reader's record that have neither a partner nor a default, each after a space.
fn push_lacking(alloc: Global, output: &mut String, pair: &Pair) -> Result<(), AllocError>
    requires { IsInside pair.now }
    ensures { OnOk result (string_bytes output.new ≡ string_bytes output.old ++ lacking_words pair.now) }
{
    let positions = all_lacking(alloc, pair.writer, pair.w, pair.reader, pair.r)?;
    for position in &positions {
        push_field(output, pair.reader, pair.r, *position)?;
    }
    Ok(())
}

/// Appends the symbols of a writer's enum that a reader's lacks, each after a space.
fn push_missing(alloc: Global, output: &mut String, pair: &Pair) -> Result<(), AllocError>
    requires { IsInside pair.now }
    ensures { OnOk result (string_bytes output.new ≡ string_bytes output.old ++ missing_words pair.now) }
{
    let positions = all_missing(alloc, pair.writer, pair.w, pair.reader, pair.r)?;
    for position in &positions {
        push_symbol(output, pair.writer, pair.w, *position)?;
    }
    Ok(())
}

/// Appends the types of a pair that does not match: where both are arrays or both are maps, with what they hold.
fn push_two_types(output: &mut String, pair: &Pair) -> Result<(), AllocError>
    requires { IsInside pair.now }
    ensures { OnOk result (string_bytes output.new ≡ string_bytes output.old ++ about NoMatch pair.now) }
{
    let steps = pair.writer.len();
    push_beside(output, pair.writer, pair.w, pair.reader, pair.r, steps)?;
    output.push_str(" is not read as ")?;
    push_beside(output, pair.reader, pair.r, pair.writer, pair.w, steps)
}

/// Appends the type of a writer's node that goes into no branch.
fn push_branchless(output: &mut String, pair: &Pair) -> Result<(), AllocError>
    requires { IsInside pair.now }
    ensures { OnOk result (string_bytes output.new ≡ string_bytes output.old ++ about NoBranch pair.now) }
{
    push_type(output, pair.writer, pair.w)?;
    output.push_str(" goes into no branch of the union")
}

/// Appends what a bad pair is about, in words.
fn push_about(
    alloc: Global,
    output: &mut String,
    kind: MismatchKind,
    pair: &Pair,
) -> Result<(), AllocError>
    requires { IsInside pair.now }
    ensures { OnOk result (string_bytes output.new ≡ string_bytes output.old ++ about kind pair.now) }
{
    match kind {
        MismatchKind::NoMatch => push_two_types(output, pair),
        MismatchKind::NoBranch => push_branchless(output, pair),
        MismatchKind::NoDefault => {
            output.push_str("fields without a default:")?;
            push_lacking(alloc, output, pair)
        }
        MismatchKind::NoSymbol => {
            output.push_str("symbols that the reader lacks:")?;
            push_missing(alloc, output, pair)
        }
        MismatchKind::BytesNotText => {
            output.push_str("bytes that are no UTF-8")?;
            Ok(())
        }
    }
}

/// Appends the path of a node, and a space.
fn push_path_of(
    alloc: Global,
    output: &mut String,
    paths: &[Vec<Step>],
    node: usize,
) -> Result<(), AllocError>
    requires { node < length paths.now }
    ensures { OnOk result (string_bytes output.new ≡ string_bytes output.old ++ path_at paths.now node) }
{
    push_path(alloc, output, &paths[node])?;
    output.push_str(" ")
}

/// Appends the kind of a bad pair and its nodes, each with a space after it.
fn push_numbers(output: &mut String, bad: &BadPair) -> Result<(), AllocError>
    ensures { OnOk result (string_bytes output.new ≡ string_bytes output.old ++ numbers bad.now) }
{
    let kind = bad.kind.name();
    let (w, r) = (bad.writer_node, bad.reader_node);
    write!(output, "{kind} {w} {r} ")
}

/// Appends the line of a bad pair: its kind, its nodes, their paths, and what it is about.
fn push_bad(
    alloc: Global,
    output: &mut String,
    writer: &Side,
    reader: &Side,
    bad: &BadPair,
) -> Result<(), AllocError>
    requires writer { bad.now.writer_node < length writer.now.nodes.now }
    requires reader { bad.now.reader_node < length reader.now.nodes.now }
    requires writer_paths { length writer.now.paths.now ≡ length writer.now.nodes.now }
    requires reader_paths { length reader.now.paths.now ≡ length reader.now.nodes.now }
    ensures { OnOk result (string_bytes output.new ≡ string_bytes output.old
        ++ bad_line writer.now reader.now bad.now) }
{
    let pair = Pair {
        writer: writer.nodes,
        w: bad.writer_node,
        reader: reader.nodes,
        r: bad.reader_node,
    };
    push_numbers(output, bad)?;
    push_path_of(alloc, output, writer.paths, pair.w)?;
    push_path_of(alloc, output, reader.paths, pair.r)?;
    push_about(alloc, output, bad.kind, &pair)?;
    output.push_str("\n")
}

/// Appends a line for each of these bad pairs, with this text before it.
fn push_all(
    alloc: Global,
    output: &mut String,
    before: &str,
    writer: &Side,
    reader: &Side,
    bad: &[BadPair],
) -> Result<(), AllocError>
    requires within { AreInside writer.now reader.now bad.now }
    requires writer_paths { length writer.now.paths.now ≡ length writer.now.nodes.now }
    requires reader_paths { length reader.now.paths.now ≡ length reader.now.nodes.now }
    ensures { OnOk result (string_bytes output.new ≡ string_bytes output.old
        ++ bad_lines before.now writer.now reader.now bad.now) }
{
    for pair in bad {
        output.push_str(before)?;
        push_bad(alloc, output, writer, reader, pair)?;
    }
    Ok(())
}

/// Appends a line for each bad pair of two schemas, with this text before it, in the order in which the pairs are
/// reached first. Returns whether there is none, which is just where the reader can read all that the writer writes,
/// but for bytes that are no UTF-8.
pub(crate) fn push_check(
    alloc: Global,
    output: &mut String,
    before: &str,
    writer: &Side,
    reader: &Side,
) -> Result<bool, AllocError>
    requires writer_paths { length writer.now.paths.now ≡ length writer.now.nodes.now }
    requires reader_paths { length reader.now.paths.now ≡ length reader.now.nodes.now }
    ensures { IfOk result (λ is_safe. IsChecked before.now writer.now reader.now (string_bytes output.old)
        (string_bytes output.new) is_safe) }
{
    let check = check_pair(alloc, writer.nodes, reader.nodes)?;
    let bad = check.bad.as_slice();
    push_all(alloc, output, before, writer, reader, bad)?;
    Ok(bad.is_empty())
}
