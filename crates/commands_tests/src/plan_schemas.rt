//! Schemas whose pairs have plans.

/// A record of a long and a string.
pub(crate) const RECORD: &str =
    r#"{"type":"record","name":"T","fields":[{"name":"a","type":"long"},{"name":"b","type":"string"}]}"#;

/// That record with its fields the other way round, and an int by default between them.
pub(crate) const EVOLVED: &str =
    r#"{"type":"record","name":"T","fields":[{"name":"b","type":"string"},
{"name":"d","type":"int","default":7},{"name":"a","type":"long"}]}"#;

/// Its string alone.
pub(crate) const STRING_ALONE: &str =
    r#"{"type":"record","name":"T","fields":[{"name":"b","type":"string"}]}"#;

/// Longs.
pub(crate) const LONGS: &str = r#"{"type":"array","items":"long"}"#;

/// A string, or null.
pub(crate) const OPTIONAL: &str = r#"["null","string"]"#;

/// A boolean, a string or null.
pub(crate) const ONE_OF_THREE: &str = r#"["null","boolean","string"]"#;

/// One of three symbols.
pub(crate) const ENUM: &str = r#"{"type":"enum","name":"E","symbols":["A","B","C"]}"#;

/// The three symbols, the other way round.
pub(crate) const RENUMBERED: &str = r#"{"type":"enum","name":"E","symbols":["C","B","A"]}"#;

/// The first two of them.
pub(crate) const FEWER: &str = r#"{"type":"enum","name":"E","symbols":["A","B"]}"#;

/// The last two of them, the other way round.
pub(crate) const LAST_TURNED: &str = r#"{"type":"enum","name":"E","symbols":["C","B"]}"#;

/// Records.
pub(crate) const RECORDS: &str = r#"{"type":"array","items":
{"type":"record","name":"T","fields":[{"name":"a","type":"long"}]}}"#;

/// Records of a long and a string.
pub(crate) const PAIRS: &str = r#"{"type":"array","items":
{"type":"record","name":"T","fields":[{"name":"a","type":"long"},{"name":"b","type":"string"}]}}"#;

/// Those records with their fields the other way round, and an int by default between them.
pub(crate) const EVOLVED_PAIRS: &str = r#"{"type":"array","items":
{"type":"record","name":"T","fields":[{"name":"b","type":"string"},
{"name":"d","type":"int","default":7},{"name":"a","type":"long"}]}}"#;

/// Maps of longs.
pub(crate) const MAPS: &str = r#"{"type":"array","items":{"type":"map","values":"long"}}"#;

/// Arrays of arrays of records.
pub(crate) const DEEP: &str = r#"{"type":"array","items":{"type":"array","items":
{"type":"record","name":"T","fields":[{"name":"a","type":"long"}]}}}"#;

/// A string.
pub(crate) const STRING: &str = r#""string""#;

/// A string, or null, the other way round.
pub(crate) const TURNED: &str = r#"["string","null"]"#;

/// A record of a long and a string with others around them.
pub(crate) const WIDE: &str =
    r#"{"type":"record","name":"T","fields":[{"name":"u","type":["null","string"]},
{"name":"a","type":"long"},{"name":"l","type":{"type":"array","items":
{"type":"record","name":"I","fields":[{"name":"i","type":"long"}]}}},
{"name":"r","type":{"type":"record","name":"R","fields":[{"name":"n","type":"int"},{"name":"s","type":"string"}]}},
{"name":"b","type":"string"},{"name":"m","type":{"type":"map","values":"long"}}]}"#;

/// Records of a long and a string, or nulls.
pub(crate) const OPTIONAL_PAIRS: &str = r#"{"type":"array","items":["null",
{"type":"record","name":"T","fields":[{"name":"a","type":"long"},{"name":"b","type":"string"}]}]}"#;

/// Those records, or nulls, with their fields the other way round.
pub(crate) const EVOLVED_OPTIONAL_PAIRS: &str = r#"{"type":"array","items":["null",
{"type":"record","name":"T","fields":[{"name":"b","type":"string"},{"name":"a","type":"long"}]}]}"#;

/// Records of a long and of longs.
pub(crate) const ROWS_OF_LONGS: &str =
    r#"{"type":"array","items":{"type":"record","name":"T","fields":[
{"name":"a","type":"long"},{"name":"c","type":{"type":"array","items":"long"}}]}}"#;

/// Those records with their fields the other way round.
pub(crate) const TURNED_ROWS_OF_LONGS: &str =
    r#"{"type":"array","items":{"type":"record","name":"T","fields":[
{"name":"c","type":{"type":"array","items":"long"}},{"name":"a","type":"long"}]}}"#;

/// A tree of longs.
pub(crate) const TREE: &str =
    r#"{"type":"record","name":"N","fields":[{"name":"value","type":"long"},
{"name":"left","type":["null","N"]},{"name":"right","type":["null","N"]}]}"#;

/// A list of longs.
pub(crate) const LIST: &str =
    r#"{"type":"record","name":"L","fields":[{"name":"value","type":"long"},
{"name":"next","type":["null","L"]}]}"#;

/// A list of longs and strings.
pub(crate) const LIST_OF_PAIRS: &str =
    r#"{"type":"record","name":"L","fields":[{"name":"a","type":"long"},
{"name":"b","type":"string"},{"name":"next","type":["null","L"]}]}"#;

/// That list with its strings first.
pub(crate) const TURNED_LIST_OF_PAIRS: &str =
    r#"{"type":"record","name":"L","fields":[{"name":"b","type":"string"},
{"name":"a","type":"long"},{"name":"next","type":["null","L"]}]}"#;

/// That list with what follows first.
pub(crate) const LIST_FROM_ITS_END: &str =
    r#"{"type":"record","name":"L","fields":[{"name":"next","type":["null","L"]},
{"name":"a","type":"long"},{"name":"b","type":"string"}]}"#;

/// A long, a tree of longs or null, and a boolean.
pub(crate) const WITH_TREE: &str =
    r#"{"type":"record","name":"T","fields":[{"name":"a","type":"long"},
{"name":"tree","type":["null",{"type":"record","name":"N","fields":[{"name":"value","type":"long"},
{"name":"left","type":["null","N"]},{"name":"right","type":["null","N"]}]}]},{"name":"b","type":"boolean"}]}"#;

/// That record without the tree.
pub(crate) const WITHOUT_TREE: &str =
    r#"{"type":"record","name":"T","fields":[{"name":"a","type":"long"},
{"name":"b","type":"boolean"}]}"#;

/// A value as JSON has them: a null, a boolean, a number, a text, some values, or values by keys.
pub(crate) const VALUE: &str =
    r#"{"type":"record","name":"V","fields":[{"name":"v","type":["null","boolean","long","string",
{"type":"array","items":"V"},{"type":"map","values":"V"}]}]}"#;

/// Records of two types in turn.
pub(crate) const MUTUAL: &str =
    r#"{"type":"record","name":"A","fields":[{"name":"a","type":"long"},{"name":"b","type":["null",
{"type":"record","name":"B","fields":[{"name":"b","type":"boolean"},{"name":"a","type":["null","A"]}]}]}]}"#;

/// Strings by keys.
pub(crate) const MAP: &str = r#"{"type":"map","values":"string"}"#;

/// Records of a long and a string, or longs.
pub(crate) const RECORDS_OR_LONGS: &str = r#"{"type":"array","items":[
{"type":"record","name":"T","fields":[{"name":"a","type":"long"},{"name":"b","type":"string"}]},"long"]}"#;

/// Those records or longs, where a reader has ints for the strings, which do not match.
pub(crate) const UNMATCHED_RECORDS_OR_LONGS: &str = r#"{"type":"array","items":[
{"type":"record","name":"T","fields":[{"name":"a","type":"long"},{"name":"b","type":"int"}]},"long"]}"#;

/// A record of a long and an int.
pub(crate) const UNMATCHED_RECORD: &str =
    r#"{"type":"record","name":"T","fields":[{"name":"a","type":"long"},{"name":"b","type":"int"}]}"#;

/// Records of longs and a map of strings.
pub(crate) const HOLDERS: &str = r#"{"type":"record","name":"H","fields":[
{"name":"l","type":{"type":"array","items":"long"}},{"name":"m","type":{"type":"map","values":"string"}}]}"#;

/// Those records with their fields the other way round.
pub(crate) const TURNED_HOLDERS: &str = r#"{"type":"record","name":"H","fields":[
{"name":"m","type":{"type":"map","values":"string"}},{"name":"l","type":{"type":"array","items":"long"}}]}"#;

/// Its map alone.
pub(crate) const MAP_ALONE: &str = r#"{"type":"record","name":"H","fields":[
{"name":"m","type":{"type":"map","values":"string"}}]}"#;

/// Records of a text and of such records.
pub(crate) const HELD: &str = r#"{"type":"record","name":"R","fields":[{"name":"s","type":"string"},
{"name":"r","type":{"type":"array","items":"R"}}]}"#;
