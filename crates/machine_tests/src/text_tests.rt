//! Texts: rows by 64 bytes, and what is known of a cut character.

use crate::rows::assert_rows;
use std::test::Fail;

const TEXTS: &str = "\
0 TEXT;1 HALT|00|done 00 count 2
0 TEXT;1 HALT|8001{64:61}|done 8001{64:61} count 3
0 TEXT;1 HALT|8402{130:61}|done 8402{130:61} count 5
0 TEXT;1 HALT|8201{63:61}c3a9|done 8201{63:61}c3a9 count 4
0 TEXT;1 HALT|8201{63:61}c328|malformed BadText at 2 count 3
0 TEXT;1 HALT|02c3|malformed BadText at 1 count 2
0 TEXT;1 HALT|02ff|malformed BadText at 1 count 2
0 TEXT;1 HALT|8201{63:61}c3|malformed Truncated at 66 count 3
";

/// Rows for bytes that have to be a text.
const BYTES: &str = "\
miss 0 BytesNotText 0 0;0 BYTESTEXT 0;1 HALT|02ff|mismatch BytesNotText 0 0 count 3
miss 0 BytesNotText 0 0;0 BYTESTEXT 0;1 HALT|0261|done 0261 count 3
miss 0 BytesNotText 0 0;0 BYTESTEXT 0;1 HALT|8201{63:61}c328|mismatch BytesNotText 0 0 count 4
miss 0 BytesNotText 0 0;0 BYTESTEXT 0;1 HALT|8201{63:61}c3a9|done 8201{63:61}c3a9 count 4
";

#[test]
fn texts_take_a_row_for_64_bytes(rt: HostRuntime) -> Result<(), Fail> {
    assert_rows(&rt, "end 1 1000000000", TEXTS)?;
    assert_rows(&rt, "end 7 1000000000", TEXTS)?;
    assert_rows(&rt, "end 1000 1000000000", TEXTS)
}

#[test]
fn bytes_that_are_no_text_are_a_miss(rt: HostRuntime) -> Result<(), Fail> {
    assert_rows(&rt, "end 1 1000000000", BYTES)
}
