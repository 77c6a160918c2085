//! Why a datum does not become one of the reader's.

ghost use Rattle.std.specs.Prelude.{◌≡◌};

/// Why a writer's datum does not become one of the reader's.
#[derive(Clone, Copy, Debug, PartialEq, Eq)]
pub enum MismatchKind {
    /// The nodes do not match.
    NoMatch,
    /// No branch of the reader's union matches.
    NoBranch,
    /// The reader lacks the symbol, and has no default for it.
    NoSymbol,
    /// The reader has a field that the writer lacks, and no default for it.
    NoDefault,
    /// The bytes are no UTF-8.
    BytesNotText,
}

impl MismatchKind {
    ghost use Rattle.spec_avro.specs.MismatchKind.{code_of, name_of};

    /// Returns its number, by which images write it and by which it is looked up.
    pub fn code(self) -> u8
        ensures { result ≡ code_of self }
    {
        match self {
            MismatchKind::NoMatch => 1,
            MismatchKind::NoBranch => 2,
            MismatchKind::NoSymbol => 3,
            MismatchKind::NoDefault => 4,
            MismatchKind::BytesNotText => 5,
        }
    }

    /// Returns its name, as programs print it.
    pub fn name(self) -> &'static str
        ensures { result.now ≡ name_of self }
    {
        match self {
            MismatchKind::NoMatch => "NoMatch",
            MismatchKind::NoBranch => "NoBranch",
            MismatchKind::NoSymbol => "NoSymbol",
            MismatchKind::NoDefault => "NoDefault",
            MismatchKind::BytesNotText => "BytesNotText",
        }
    }
}

/// The first mismatch of a datum, in the writer's order, with the numbers of both nodes.
#[derive(Clone, Copy, Debug, PartialEq, Eq)]
pub struct Mismatch {
    pub kind: MismatchKind,
    pub writer_node: usize,
    pub reader_node: usize,
}
