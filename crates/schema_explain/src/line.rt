//! What becomes of a part of a message, as a line.

use avro_bytes::MismatchKind;

/// Which part of a message a line is of: of what the line above it, that is one less deep, is of.
#[derive(Clone, Copy, Debug, PartialEq, Eq)]
pub enum Part {
    /// The whole message.
    Root,
    /// A field, at these positions among the fields of both records; `None` where that record has no such field.
    Field {
        writer: Option<usize>,
        reader: Option<usize>,
    },
    /// Each item of an array.
    Item,
    /// Each value of a map.
    Value,
    /// The branch at this position in the writer's union.
    Branch(usize),
    /// The symbol at this position in the writer's enum.
    Symbol(usize),
}

/// What becomes of a part.
#[derive(Clone, Copy, Debug, PartialEq, Eq)]
pub enum Fate {
    /// It is copied.
    Copied,
    /// An int becomes a long, or a string becomes bytes.
    Promoted,
    /// Bytes become a string where they are UTF-8, and else are the mismatch BytesNotText.
    PromotedIfText,
    /// It has parts of its own, which are the lines that follow, one deeper.
    Parts,
    /// It has parts of its own, which were explained above.
    AsAbove,
    /// The reader takes a default: its field's where the writer has no such field, its enum's where it has no such
    /// symbol.
    Default,
    /// The reader has no such field.
    Dropped,
    /// It mismatches: always, but where the kind is NoSymbol, for one symbol.
    Mismatch(MismatchKind),
}

/// What becomes of one part.
#[derive(Clone, Copy, Debug, PartialEq, Eq)]
pub struct Line {
    /// How many lines it is a part of.
    pub depth: usize,
    pub part: Part,
    /// The writer's node; `None` where the reader takes the default of a field. Where a field is the mismatch
    /// NoDefault, the record without it.
    pub writer: Option<usize>,
    /// The reader's node that it goes into, which is a branch's where the reader has a union; `None` where a field is
    /// dropped.
    pub reader: Option<usize>,
    /// The position of that branch in the reader's union; `None` where it goes into the reader's node itself.
    pub branch: Option<usize>,
    pub fate: Fate,
}
