//! All kinds of misses.

use spec_avro::MismatchKind;

/// The kinds of misses.
pub const KINDS: [MismatchKind; 5] = [
    MismatchKind::NoMatch,
    MismatchKind::NoBranch,
    MismatchKind::NoSymbol,
    MismatchKind::NoDefault,
    MismatchKind::BytesNotText,
];
