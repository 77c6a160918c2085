//! What can be wrong with bytes.

ghost use Rattle.std.specs.Prelude.{◌≡◌};

/// What is wrong with malformed bytes.
#[derive(Clone, Copy, Debug, PartialEq, Eq)]
pub enum MalformedKind {
    /// A number that is too long, or whose last byte is too great. Reported at its first byte.
    BadNumber,
    /// A boolean above 1. Reported at its byte.
    BadBoolean,
    /// A length below 0 or above the greatest. Reported at the length.
    BadLength,
    /// A string or a key that is not UTF-8, once it is all there. Reported at its first content byte.
    BadText,
    /// A position that is no symbol's. Reported at the position.
    BadEnum,
    /// A position that is no branch's. Reported at the position.
    BadBranch,
    /// A block whose size is not that of its items. Reported at the block's count.
    BadBlock,
    /// A record, array or map inside too many others. Reported where it begins.
    TooDeep,
    /// A record, item or pair too many. Reported where it begins.
    TooMany,
    /// A payload that ends inside a part. Reported at the payload's length.
    Truncated,
    /// Bytes after the datum. Reported at the first of them.
    Trailing,
}

impl MalformedKind {
    ghost use Rattle.spec_avro.specs.MalformedKind.{name_of};

    /// Returns its name, as programs print it.
    pub fn name(self) -> &'static str
        ensures { result.now ≡ name_of self }
    {
        match self {
            MalformedKind::BadNumber => "BadNumber",
            MalformedKind::BadBoolean => "BadBoolean",
            MalformedKind::BadLength => "BadLength",
            MalformedKind::BadText => "BadText",
            MalformedKind::BadEnum => "BadEnum",
            MalformedKind::BadBranch => "BadBranch",
            MalformedKind::BadBlock => "BadBlock",
            MalformedKind::TooDeep => "TooDeep",
            MalformedKind::TooMany => "TooMany",
            MalformedKind::Truncated => "Truncated",
            MalformedKind::Trailing => "Trailing",
        }
    }
}
