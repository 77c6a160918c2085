//! Pairs of schemas, a writer's and a reader's, with their lines: of each the part, the writer's node and the reader's,
//! the branch that it goes into, and what becomes of it.

/// Leaves.
pub(crate) const LEAVES: &str = r#""int"
"long"
root 0>0 promoted

"string"
"bytes"
root 0>0 promoted

"bytes"
"string"
root 0>0 promoted if text

"boolean"
"boolean"
root 0>0 copied

"long"
"int"
root 0>0 mismatch NoMatch

{"type":"fixed","name":"F","size":2}
{"type":"fixed","name":"F","size":3}
root 0>0 mismatch NoMatch"#;

/// Unions, of the writer, of the reader and of both.
pub(crate) const UNIONS: &str = r#"["null","int","string"]
["string","long"]
root 0>0 parts
  branch 0 1>0 mismatch NoBranch
  branch 1 2>2 into 1 promoted
  branch 2 3>1 into 0 copied

["int","long"]
"long"
root 0>0 parts
  branch 0 1>0 promoted
  branch 1 2>0 copied

"int"
["null","int","long"]
root 0>2 into 1 copied

"int"
["null","string"]
root 0>0 mismatch NoBranch"#;

/// Enums.
pub(crate) const ENUMS: &str = r#"{"type":"enum","name":"E","symbols":["A","B","C"]}
{"type":"enum","name":"E","symbols":["C","A","D"],"default":"D"}
root 0>0 parts
  symbol 0 0>0 copied
  symbol 1 0>0 default
  symbol 2 0>0 copied

{"type":"enum","name":"E","symbols":["A","B"],"default":"A"}
["null",{"type":"enum","name":"E","symbols":["A"]}]
root 0>2 into 1 parts
  symbol 0 0>2 copied
  symbol 1 0>2 mismatch NoSymbol"#;

/// Records: fields that go by their names or by an alias, in the reader's order, and then those that are dropped.
pub(crate) const RECORDS: &str =
    r#"{"type":"record","name":"R","fields":[{"name":"a","type":"int"},{"name":"note","type":"string"},{"name":"gone","type":"boolean"},{"name":"lost","type":"bytes"}]}
{"type":"record","name":"R","fields":[{"name":"memo","aliases":["note"],"type":"string"},{"name":"a","type":"long","default":7},{"name":"d","type":"int","default":1},{"name":"e","type":"string"}]}
root 0>0 parts
  field 1>0 2>1 copied
  field 0>1 1>2 promoted
  field ->2 ->3 default
  field ->3 0>4 mismatch NoDefault
  field 2>- 3>- dropped
  field 3>- 4>- dropped

{"type":"record","name":"R","fields":[]}
{"type":"record","name":"R","fields":[]}
root 0>0 parts

{"type":"record","name":"R","fields":[]}
{"type":"record","name":"S","fields":[]}
root 0>0 mismatch NoMatch"#;

/// Parts within parts, and parts that recur.
pub(crate) const NESTED: &str =
    r#"{"type":"array","items":{"type":"map","values":{"type":"fixed","name":"F","size":2}}}
{"type":"array","items":{"type":"map","values":{"type":"fixed","name":"F","size":2}}}
root 0>0 parts
  item 1>1 parts
    value 2>2 copied

{"type":"array","items":"string"}
{"type":"array","items":"int"}
root 0>0 mismatch NoMatch

{"type":"record","name":"R","fields":[{"name":"v","type":"int"},{"name":"next","type":["null","R"]}]}
{"type":"record","name":"R","fields":[{"name":"v","type":"long"},{"name":"next","type":["null","R"]}]}
root 0>0 parts
  field 0>0 1>1 promoted
  field 1>1 2>2 parts
    branch 0 3>3 into 0 copied
    branch 1 0>0 into 1 as above

{"type":"record","name":"R","fields":[{"name":"p","type":{"type":"record","name":"P","fields":[{"name":"x","type":"int"}]}},{"name":"q","type":"P"},{"name":"x","type":"int"}]}
{"type":"record","name":"R","fields":[{"name":"q","type":{"type":"record","name":"P","fields":[{"name":"x","type":"int"},{"name":"y","type":"int"}]}},{"name":"p","type":"P"}]}
root 0>0 parts
  field 1>0 1>1 parts
    field 0>0 2>2 copied
    field ->1 1>3 mismatch NoDefault
  field 0>1 1>1 as above
  field 2>- 3>- dropped

{"type":"record","name":"a.R","fields":[{"name":"n","type":{"type":"record","name":"b.R","fields":[{"name":"n","type":"a.R"}]}}]}
{"type":"record","name":"c.R","fields":[{"name":"n","type":{"type":"record","name":"d.R","fields":[{"name":"n","type":{"type":"record","name":"e.R","fields":[{"name":"n","type":"c.R"}]}}]}}]}
root 0>0 parts
  field 0>0 1>1 parts
    field 0>0 0>2 parts
      field 0>0 1>0 parts
        field 0>0 0>1 parts
          field 0>0 1>2 parts
            field 0>0 0>0 as above"#;
