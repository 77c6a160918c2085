//! Pairs of schemas, a writer's and a reader's, with their bad pairs: of each the kind, the way from the roots to it,
//! whose last pair it is, and the positions of the fields that lack or the symbols that are missing.

/// Pairs in which nothing is wrong.
pub(crate) const SAFE: &str = r#""int"
"long"
->

{"type":"record","name":"R","fields":[{"name":"r","type":["null","R"]}]}
{"type":"record","name":"R","fields":[{"name":"r","type":["null","R"]},{"name":"d","type":"int","default":0}]}
->

{"type":"enum","name":"E","symbols":["A","B"]}
{"type":"enum","name":"E","symbols":["A"],"default":"A"}
->

"bytes"
"string"
->"#;

/// Pairs of which each rule refuses one or more.
pub(crate) const BAD: &str = r#""int"
"string"
-> NoMatch 0/0;

["null","string","long"]
["null","string"]
-> NoBranch 0/0 3/0;

{"type":"enum","name":"E","symbols":["A","B","C"]}
{"type":"enum","name":"E","symbols":["B"]}
-> NoSymbol 0/0 symbols [0, 2];

{"type":"record","name":"R","fields":[{"name":"a","type":"int"}]}
{"type":"record","name":"R","fields":[{"name":"b","type":"int"},{"name":"a","type":"int"},{"name":"c","type":"int","default":1},{"name":"d","type":"int"}]}
-> NoDefault 0/0 fields [0, 3];

{"type":"record","name":"R","fields":[{"name":"a","type":"string"},{"name":"r","type":["null","R"]}]}
{"type":"record","name":"R","fields":[{"name":"r","type":["null","R"]},{"name":"a","type":"int"}]}
-> NoMatch 0/0 1/3;

{"type":"record","name":"R","fields":[{"name":"a","type":{"type":"array","items":"string"}},{"name":"e","type":{"type":"enum","name":"E","symbols":["A","B"]}}]}
{"type":"record","name":"R","fields":[{"name":"a","type":{"type":"array","items":"int"}},{"name":"e","type":{"type":"enum","name":"E","symbols":["A"]}},{"name":"n","type":"int"}]}
-> NoDefault 0/0 fields [2]; NoMatch 0/0 1/1; NoSymbol 0/0 3/3 symbols [1];"#;
