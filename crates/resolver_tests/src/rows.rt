//! Worked rows, separated by empty lines: schemas, a line each, a payload in hexadecimal, or `-`, and what is
//! answered. What is between tildes is repeated as many times as its first word says, each time with its number in
//! place of each `#`.

/// A schema, a payload, and what its datum is written as, or the first fault.
pub(crate) const DATA: &str =
    r#"{"type":"record","name":"T","fields":[{"name":"a","type":"long"},{"name":"b","type":"string"}]}
3606666f6f -> written 3606666f6f

{"type":"record","name":"T","fields":[{"name":"a","type":"long"},{"name":"b","type":"string"}]}
b60000 -> written 3600

"int"
8000 -> written 00

"long"
7f -> written 7f

"string"
0261 -> written 0261

"null"
- -> written -

"boolean"
01 -> written 01

"bytes"
02ff -> written 02ff

{"type":"fixed","name":"F","size":2}
01ff -> written 01ff

{"type":"enum","name":"E","symbols":["A","B"]}
02 -> written 02

{"type":"enum","name":"E","symbols":["A","B"]}
8200 -> written 02

["null","string"]
00 -> written 00

["null","string"]
020261 -> written 020261

{"type":"array","items":"long"}
00 -> written 00

{"type":"array","items":"long"}
010206023600 -> written 04063600

{"type":"array","items":"null"}
0400 -> written 0400

{"type":"array","items":"null"}
8080800100 -> written 8080800100

{"type":"map","values":"int"}
00 -> written 00

{"type":"map","values":"int"}
0402610202610400 -> written 0402610202610400

{"type":"record","name":"L","fields":[{"name":"value","type":"long"},{"name":"next","type":["null","L"]}]}
02020400 -> written 02020400

{"type":"record","name":"T","fields":[{"name":"a","type":"long"},{"name":"b","type":"string"}]}
360666 -> malformed Truncated at 3

{"type":"record","name":"T","fields":[{"name":"a","type":"long"},{"name":"b","type":"string"}]}
3606666f6f00 -> malformed Trailing at 5

{"type":"record","name":"T","fields":[{"name":"a","type":"long"},{"name":"b","type":"string"}]}
01 -> malformed Truncated at 1

{"type":"record","name":"T","fields":[{"name":"a","type":"long"},{"name":"b","type":"string"}]}
- -> malformed Truncated at 0

{"type":"record","name":"T","fields":[{"name":"a","type":"long"},{"name":"b","type":"string"}]}
3602ff -> malformed BadText at 2

{"type":"record","name":"T","fields":[{"name":"a","type":"long"},{"name":"b","type":"string"}]}
3601 -> malformed BadLength at 1

"int"
ffffffff1f -> malformed BadNumber at 0

"string"
02ff -> malformed BadText at 1

"string"
04ff -> malformed Truncated at 2

"null"
00 -> malformed Trailing at 0

"boolean"
02 -> malformed BadBoolean at 0

"bytes"
01 -> malformed BadLength at 0

{"type":"fixed","name":"F","size":2}
01 -> malformed Truncated at 1

{"type":"enum","name":"E","symbols":["A","B"]}
04 -> malformed BadEnum at 0

{"type":"enum","name":"E","symbols":["A","B"]}
01 -> malformed BadEnum at 0

["null","string"]
04 -> malformed BadBranch at 0

["null","string"]
01 -> malformed BadBranch at 0

["null","string"]
0202ff -> malformed BadText at 2

{"type":"array","items":"long"}
01040600 -> malformed BadBlock at 0

{"type":"array","items":"long"}
020601010600 -> malformed BadBlock at 2

{"type":"array","items":"long"}
0406 -> malformed Truncated at 2

{"type":"map","values":"int"}
0202ff -> malformed BadText at 2

{"type":"map","values":"int"}
0201 -> malformed BadLength at 1

{"type":"array","items":"null"}
8280800100 -> malformed TooMany at 4

{"type":"record","name":"R","fields":[{"name":"r","type":"R"}]}
- -> malformed TooDeep at 0

{"type":"record","name":"L","fields":[{"name":"value","type":"long"},{"name":"next","type":["null","L"]}]}
020204 -> malformed Truncated at 3"#;

/// A writer's schema, a reader's, a payload, and its outcome.
pub(crate) const OUTCOMES: &str =
    r#"{"type":"record","name":"T","fields":[{"name":"a","type":"long"},{"name":"b","type":"string"}]}
{"type":"record","name":"T","fields":[{"name":"a","type":"long"},{"name":"b","type":"string"}]}
3606666f6f -> done 3606666f6f

{"type":"record","name":"T","fields":[{"name":"a","type":"long"},{"name":"b","type":"string"}]}
{"type":"record","name":"T","fields":[{"name":"b","type":"string"},{"name":"a","type":"long"}]}
3606666f6f -> done 06666f6f36

{"type":"record","name":"T","fields":[{"name":"a","type":"long"},{"name":"b","type":"string"}]}
{"type":"record","name":"T","fields":[{"name":"b","type":"string"},{"name":"c","type":"int","default":7}]}
3606666f6f -> done 06666f6f0e

{"type":"array","items":"long"}
{"type":"array","items":"long"}
010206023600 -> done 04063600

"int"
["null","long","int"]
02 -> done 0202

["null","string"]
"string"
020261 -> done 0261

{"type":"enum","name":"E","symbols":["A","B","C"]}
{"type":"enum","name":"E","symbols":["A","C"],"default":"A"}
02 -> done 00

{"type":"enum","name":"E","symbols":["A","B","C"]}
{"type":"enum","name":"E","symbols":["A","C"],"default":"A"}
04 -> done 02

"int"
"int"
8000 -> done 00

{"type":"array","items":"null"}
{"type":"array","items":"null"}
8080800100 -> done 8080800100

{"type":"map","values":"int"}
{"type":"map","values":"int"}
0402610202610400 -> done 0402610202610400

{"type":"record","name":"T","fields":[{"name":"a","type":"long"}]}
{"type":"record","name":"T","fields":[{"name":"a","type":"long"},{"name":"u","type":["null","string"],"default":null}]}
36 -> done 3600

["null","string"]
"string"
00 -> mismatch NoMatch 1 0

{"type":"enum","name":"E","symbols":["A","B","C"]}
{"type":"enum","name":"E","symbols":["A","C"]}
02 -> mismatch NoSymbol 0 0

{"type":"record","name":"U","fields":[{"name":"u","type":["null","string"]},{"name":"n","type":"long"}]}
{"type":"record","name":"U","fields":[{"name":"u","type":"string"},{"name":"n","type":"long"}]}
0036 -> mismatch NoMatch 2 1

"bytes"
"string"
02ff -> mismatch BytesNotText 0 0

{"type":"record","name":"T","fields":[{"name":"a","type":"long"},{"name":"b","type":"string"}]}
{"type":"record","name":"T","fields":[{"name":"a","type":"long"},{"name":"b","type":"string"},{"name":"d","type":"int"}]}
3606666f6f -> mismatch NoDefault 0 3

{"type":"array","items":"long"}
{"type":"array","items":"long"}
01040600 -> malformed BadBlock at 0

"int"
"int"
ffffffff1f -> malformed BadNumber at 0

{"type":"record","name":"U","fields":[{"name":"u","type":["null","string"]},{"name":"n","type":"long"}]}
{"type":"record","name":"U","fields":[{"name":"u","type":"string"},{"name":"n","type":"long"}]}
0080 -> malformed Truncated at 2

"string"
"string"
02ff -> malformed BadText at 1

{"type":"array","items":"null"}
{"type":"array","items":"null"}
8280800100 -> malformed TooMany at 4

{"type":"record","name":"T","fields":[{"name":"a","type":"long"},{"name":"b","type":"string"}]}
{"type":"record","name":"T","fields":[{"name":"a","type":"long"},{"name":"b","type":"string"}]}
- -> malformed Truncated at 0

{"type":"record","name":"T","fields":[{"name":"a","type":"long"},{"name":"b","type":"string"}]}
{"type":"record","name":"T","fields":[{"name":"a","type":"long"},{"name":"b","type":"string"},{"name":"d","type":"int"}]}
36 -> malformed Truncated at 1

{"type":"record","name":"R","fields":[{"name":"r","type":"R"}]}
{"type":"record","name":"R","fields":[{"name":"r","type":"R"}]}
- -> malformed TooDeep at 0

{"type":"record","name":"T","fields":[{"name":"a","type":"long"},{"name":"b","type":"string"}]}
{"type":"record","name":"T","fields":[{"name":"a","type":"string"},{"name":"b","type":"long"}]}
360666 -> malformed Truncated at 3

{"type":"record","name":"T","fields":[{"name":"a","type":"long"},{"name":"b","type":"string"}]}
{"type":"record","name":"T","fields":[{"name":"a","type":"string"},{"name":"b","type":"long"}]}
3606666f6f -> mismatch NoMatch 1 1

{"type":"record","name":"T","fields":[{"name":"a","type":"long"},{"name":"b","type":"string"}]}
{"type":"record","name":"S","aliases":["T"],"fields":[{"name":"b","type":"string"},{"name":"x","type":"long","aliases":["a"]}]}
3606666f6f -> done 06666f6f36

{"type":"record","name":"T","fields":[{"name":"a","type":"long"},{"name":"b","type":"string"}]}
{"type":"record","name":"T","fields":[{"name":"x","type":"long","aliases":["a"]},{"name":"y","type":"string","aliases":["a","b"]}]}
3606666f6f -> done 3606666f6f

{"type":"record","name":"T","fields":[{"name":"a","type":"long"},{"name":"b","type":"string"}]}
{"type":"record","name":"T","fields":[{"name":"b","type":"string"},{"name":"c","type":"long","aliases":["b"]}]}
3606666f6f -> mismatch NoDefault 0 2

{"type":"enum","name":"n.E","symbols":["A"]}
{"type":"enum","name":"m.F","aliases":["n.E"],"symbols":["A"]}
00 -> done 00

{"type":"enum","name":"n.E","symbols":["A"]}
{"type":"enum","name":"m.F","aliases":["E"],"symbols":["A"]}
00 -> mismatch NoMatch 0 0

{"type":"enum","name":"n.G","aliases":["n.E"],"symbols":["A"]}
{"type":"enum","name":"n.E","symbols":["A"]}
00 -> mismatch NoMatch 0 0

{"type":"enum","name":"n.E","symbols":["A"]}
{"type":"enum","name":"n.E","aliases":["n.H"],"symbols":["A"]}
00 -> done 00"#;

/// A writer's schema, a reader's, no payload, and whether that is safe with it.
pub(crate) const SAFETY: &str =
    r#"{"type":"record","name":"T","fields":[{"name":"a","type":"long"},{"name":"b","type":"string"}]}
{"type":"record","name":"T","fields":[{"name":"a","type":"long"},{"name":"b","type":"string"},{"name":"d","type":"int"}]}
- -> Ok(false)

{"type":"record","name":"T","fields":[{"name":"a","type":"long"},{"name":"b","type":"string"}]}
{"type":"record","name":"T","fields":[{"name":"a","type":"long"},{"name":"b","type":"string"},{"name":"d","type":"int","default":0}]}
- -> Ok(true)

["null","string"]
"string"
- -> Ok(false)

"string"
["null","string"]
- -> Ok(true)

{"type":"enum","name":"E","symbols":["A","B","C"]}
{"type":"enum","name":"E","symbols":["A","C"]}
- -> Ok(false)

{"type":"enum","name":"E","symbols":["A","B","C"]}
{"type":"enum","name":"E","symbols":["A","C"],"default":"A"}
- -> Ok(true)

"bytes"
"string"
- -> Ok(true)

{"type":"record","name":"R","fields":[{"name":"r","type":"R"}]}
{"type":"record","name":"R","fields":[{"name":"r","type":"R"}]}
- -> Ok(true)

{"type":"record","name":"T","fields":[{"name":"a","type":"long"},{"name":"b","type":"string"}]}
{"type":"record","name":"T","fields":[{"name":"a","type":"long"},{"name":"b","type":"string"}]}
- -> Ok(true)

{"type":"record","name":"T","fields":[{"name":"a","type":"long"},{"name":"b","type":"string"}]}
{"type":"record","name":"T","fields":[{"name":"b","type":"string"},{"name":"a","type":"long"}]}
- -> Ok(true)

{"type":"record","name":"T","fields":[{"name":"a","type":"long"},{"name":"b","type":"string"}]}
{"type":"record","name":"T","fields":[{"name":"b","type":"string"}]}
- -> Ok(true)

{"type":"record","name":"T","fields":[{"name":"a","type":"long"},{"name":"b","type":"string"}]}
{"type":"record","name":"U","fields":[{"name":"a","type":"long"},{"name":"b","type":"string"}]}
- -> Ok(false)

{"type":"record","name":"T","fields":[{"name":"a","type":"long"},{"name":"b","type":"string"}]}
{"type":"record","name":"T","fields":[{"name":"a","type":"string"},{"name":"b","type":"long"}]}
- -> Ok(false)

{"type":"enum","name":"n.E","symbols":["A"]}
{"type":"enum","name":"m.F","aliases":["n.E"],"symbols":["A"]}
- -> Ok(true)

{"type":"enum","name":"n.E","symbols":["A"]}
{"type":"enum","name":"m.F","aliases":["E"],"symbols":["A"]}
- -> Ok(false)

{"type":"enum","name":"n.G","aliases":["n.E"],"symbols":["A"]}
{"type":"enum","name":"n.E","symbols":["A"]}
- -> Ok(false)

{"type":"enum","name":"n.E","symbols":["A"]}
{"type":"enum","name":"n.E","aliases":["n.H"],"symbols":["A"]}
- -> Ok(true)"#;

/// A schema of records inside one another, a payload of many of them, and whether it is read twice alike and written
/// as it came, or the first fault.
pub(crate) const NESTED: &str =
    r#"{"type":"record","name":"C","fields":[{"name":"next","type":["null","C"]}]}
~999 02~00 -> Ok(true)

{"type":"record","name":"C","fields":[{"name":"next","type":["null","C"]}]}
~1000 02~00 -> Err(Malformed { kind: TooDeep, at: 1000 })"#;

/// A schema, a payload after one byte, and what is read and skipped: the datum, where it ends and the meter there.
pub(crate) const SKIPPED: &str =
    r#"{"type":"record","name":"T","fields":[{"name":"a","type":"long"},{"name":"b","type":"string"}]}
003606666f6f01 -> Ok((Record([Long(27), Text("foo")]), 6, Meter { depth: 0, units: 1 }))

{"type":"map","values":"int"}
0701060261020009 -> Ok((Map([("a", Int(1))]), 7, Meter { depth: 0, units: 1 }))"#;

/// As `SKIPPED`, but where no further unit may be read.
pub(crate) const FULL: &str =
    r#"{"type":"record","name":"T","fields":[{"name":"a","type":"long"},{"name":"b","type":"string"}]}
003606666f6f01 -> Err(Malformed { kind: TooMany, at: 1 })"#;

/// What is reported of a text that would be written too large.
pub(crate) const LONGEST: &str = r#""string"
"string"
- -> the written datum passes its limit"#;

/// A writer's schema, a reader's, a payload of the writer, and what the reader makes of its datum.
pub(crate) const RESOLVED: &str =
    r#"{"type":"record","name":"T","fields":[{"name":"a","type":"long"},{"name":"b","type":"string"}]}
{"type":"record","name":"T","fields":[{"name":"b","type":"string"},{"name":"a","type":"long"}]}
3606666f6f -> Ok(Record([Text("foo"), Long(27)]))

{"type":"record","name":"T","fields":[{"name":"a","type":"long"},{"name":"b","type":"string"}]}
{"type":"record","name":"T","fields":[{"name":"b","type":"string"}]}
3606666f6f -> Ok(Record([Text("foo")]))

{"type":"record","name":"T","fields":[{"name":"a","type":"long"},{"name":"b","type":"string"}]}
{"type":"record","name":"T","fields":[{"name":"a","type":"long"},{"name":"b","type":"string"},{"name":"d","type":"int"}]}
3606666f6f -> Err(Mismatch(Mismatch { kind: NoDefault, writer_node: 0, reader_node: 3 }))

{"type":"record","name":"T","fields":[{"name":"a","type":"long"},{"name":"b","type":"string"}]}
{"type":"record","name":"T","fields":[{"name":"a","type":"string"},{"name":"b","type":"long"}]}
3606666f6f -> Err(Mismatch(Mismatch { kind: NoMatch, writer_node: 1, reader_node: 1 }))

"int"
"long"
01 -> Ok(Long(-1))"#;

/// A writer's schema, a reader's, no payload, whether the types match, and the place of the one in the other.
pub(crate) const PLACES: &str = r#""int"
"long"
- -> (true, Straight)

"long"
"int"
- -> (false, Unmatched)"#;

/// A writer's record of many fields and a reader's, no payload, and whether each field of the writer goes to the
/// reader's at the same position: by alias, by name, and not by an alias of the writer's.
pub(crate) const PARTNERS: &str =
    r#"{"type":"record","name":"T","fields":[{"name":"z","type":"int"}~40 ,{"name":"a#","type":"int","aliases":["c#"]}~]}
{"type":"record","name":"T","fields":[{"name":"z","type":"int"}~40 ,{"name":"b#","type":"int","aliases":["a#"]}~]}
- -> Ok(true)

{"type":"record","name":"T","fields":[{"name":"z","type":"int"}~40 ,{"name":"a#","type":"int","aliases":["c#"]}~]}
{"type":"record","name":"T","fields":[{"name":"z","type":"int"}~40 ,{"name":"a#","type":"int","aliases":["c#"]}~]}
- -> Ok(true)

{"type":"record","name":"T","fields":[{"name":"z","type":"int"}~40 ,{"name":"b#","type":"int","aliases":["a#"]}~]}
{"type":"record","name":"T","fields":[{"name":"z","type":"int"}~40 ,{"name":"a#","type":"int","aliases":["c#"]}~]}
- -> Ok(false)"#;

/// A schema, and a payload past the limit.
pub(crate) const TOO_LONG: &str = r#""int"
"int"
~1048576 00000000000000000000000000000000~00 -> the payload passes its limit"#;
