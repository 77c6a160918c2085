//! Worked rows. Each line is a writer's schema, a reader's, a payload and its answer, between bars.

/// How runs end, and after how many rows.
pub(crate) const COUNTS: &str = r#""string"|"string"|00|done 00 count 2
"string"|"string"|800161616161616161616161616161616161616161616161616161616161616161616161616161616161616161616161616161616161616161616161616161616161|done 800161616161616161616161616161616161616161616161616161616161616161616161616161616161616161616161616161616161616161616161616161616161 count 3
"string"|"string"|840261616161616161616161616161616161616161616161616161616161616161616161616161616161616161616161616161616161616161616161616161616161616161616161616161616161616161616161616161616161616161616161616161616161616161616161616161616161616161616161616161616161616161616161|done 840261616161616161616161616161616161616161616161616161616161616161616161616161616161616161616161616161616161616161616161616161616161616161616161616161616161616161616161616161616161616161616161616161616161616161616161616161616161616161616161616161616161616161616161 count 5
"string"|"string"|8201616161616161616161616161616161616161616161616161616161616161616161616161616161616161616161616161616161616161616161616161616161c3a9|done 8201616161616161616161616161616161616161616161616161616161616161616161616161616161616161616161616161616161616161616161616161616161c3a9 count 4
"string"|"string"|8201616161616161616161616161616161616161616161616161616161616161616161616161616161616161616161616161616161616161616161616161616161c328|malformed BadText at 2 count 3
"string"|"string"|02c3|malformed BadText at 1 count 2
{"type":"record","name":"T","fields":[{"name":"a","type":"long"},{"name":"b","type":"string"}]}|{"type":"record","name":"T","fields":[{"name":"a","type":"long"},{"name":"b","type":"string"}]}|3606666f6f|done 3606666f6f count 10
{"type":"record","name":"T","fields":[{"name":"a","type":"long"},{"name":"b","type":"string"}]}|{"type":"record","name":"T","fields":[{"name":"b","type":"string"},{"name":"a","type":"long"}]}|3606666f6f|done 06666f6f36 count 10
{"type":"record","name":"T","fields":[{"name":"a","type":"long"},{"name":"b","type":"string"}]}|{"type":"record","name":"T","fields":[{"name":"b","type":"string"},{"name":"c","type":"int","default":7}]}|3606666f6f|done 06666f6f0e count 11
{"type":"record","name":"LongList","fields":[{"name":"value","type":"long"},{"name":"next","type":["null","LongList"]}]}|{"type":"record","name":"LongList","fields":[{"name":"value","type":"long"},{"name":"next","type":["null","LongList"]}]}|02020400|done 02020400 count 20
"#;

/// A schema of both sides.
pub(crate) const BOTH: &str =
    r#"{"type":"record","name":"T","fields":[{"name":"a","type":"long"},{"name":"b","type":"string"}]}"#;

/// That record with its fields swapped.
pub(crate) const SWAPPED: &str =
    r#"{"type":"record","name":"T","fields":[{"name":"b","type":"string"},{"name":"a","type":"long"}]}"#;
