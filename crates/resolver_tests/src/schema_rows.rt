//! Texts of schemas, and what is reported of them. The rows of a table are its lines, or, where it has empty ones,
//! separated by these; what is between tildes is repeated as many times as its first word says, each time with its
//! number where there is a `#`.

/// A text, the kinds of its nodes, and its compact text.
pub(crate) const TEXTS: &str = r#""null" -> Null = "null"

"boolean" -> Boolean = "boolean"

"int" -> Int = "int"

"bytes" -> Bytes = "bytes"

"str\u0069ng" -> Text = "string"

{"type":{"type":"int"},"logicalType":"date"} -> Int = {"logicalType":"date","type":{"type":"int"}}

 "long"
 -> Long = "long"

{ "type": "record", "name": "T", "doc": 7, "aliases": ["U"],
        "fields": [ {"name": "a", "type": "long", "order": "ignore"}, {"name": "int", "type": "string"} ] }
 -> T(a 1 [] None)(int 2 [] None) Long Text = {"aliases":["U"],"doc":7,"fields":[{"name":"a","order":"ignore","type":"long"},{"name":"int","type":"string"}],"name":"T","type":"record"}

{"type":"int","name":"1","type":"record","name":"_1","fields":[]} -> _1 = {"fields":[],"name":"_1","type":"record"}"#;

/// As `TEXTS`, but of a copy.
pub(crate) const COPIED: &str =
    r#"{ "type": "record", "name": "T", "fields": [ {"name": "a", "type": ["null", "T"]} ] }
 -> T(a 1 [] None) Union([2, 0]) Null = {"fields":[{"name":"a","type":["null","T"]}],"name":"T","type":"record"}

"int" -> Int = "int""#;

/// A text and its first fault.
pub(crate) const FAULTS: &str = r#" -> NotJson
"int" "int" -> NotJson
{"type":"float","x":1.0} -> BadNumber
18446744073709551616 -> BadNumber
null -> Unknown
3 -> Unknown
{} -> Unknown
{"type":3} -> Unknown
{"type":null} -> Unknown
"C" -> Unknown
"record" -> Unknown
"error" -> Unknown
".C" -> Unknown
{"type":"record"} -> Unknown
{"type":"record","name":"T"} -> Unknown
{"type":"record","name":"T","fields":[3]} -> Unknown
{"type":"record","name":"T","fields":[{"name":"a"}]} -> Unknown
{"type":"record","name":"T","fields":[{"type":"int"}]} -> Unknown
{"type":"record","name":"T","namespace":null,"fields":[]} -> Unknown
{"type":"record","name":"a.B","fields":[{"name":"c","type":"C"}]} -> Unknown
["D",{"type":"fixed","name":"D","size":1}] -> Unknown
{"type":"enum","name":"E"} -> Unknown
{"type":"enum","name":"E","symbols":["A",1]} -> Unknown
{"type":"enum","name":"E","symbols":["1",1]} -> Unknown
{"type":"enum","name":"E","symbols":["A"],"default":null} -> Unknown
{"type":"fixed","name":"F"} -> Unknown
{"type":"array"} -> Unknown
{"type":"map","items":"int"} -> Unknown
"float" -> OutOfProfile
{"type":"double"} -> OutOfProfile
{"type":"error","name":"E","fields":[]} -> OutOfProfile
["int","double","float"] -> OutOfProfile
{"type":"record","name":"","fields":[]} -> BadName
{"type":"record","name":"1"} -> BadName
{"type":"record","name":"int","fields":[]} -> BadName
{"type":"record","name":"a.double","fields":[]} -> BadName
{"type":"fixed","name":".A","size":1} -> BadName
{"type":"fixed","name":"A","namespace":"a..b","size":1} -> BadName
{"type":"record","name":"T","fields":[{"name":"a.b","type":"int"}]} -> BadName
{"type":"record","name":"T","fields":[{"name":"1","type":"float"}]} -> BadName
{"type":"record","name":"T","fields":[{"name":"a","type":"int"},{"name":"a"}]} -> BadName
["null",{"type":"fixed","name":"F","size":1},{"type":"fixed","name":"F","size":1}] -> Redefined
{"type":"record","name":"n.T","fields":[{"name":"a","type":{"type":"enum","name":"T","symbols":[]}}]} -> Redefined
["int","int"] -> BadUnion
["null",["int"]] -> BadUnion
["null",{"type":["int"]}] -> BadUnion
[{"type":"array","items":"int"},{"type":"array","items":"long"}] -> BadUnion
[{"type":"fixed","name":"F","size":1},"F"] -> BadUnion
{"type":"enum","name":"E","symbols":["A","A"]} -> BadSymbols
{"type":"enum","name":"E","symbols":["A","1"]} -> BadSymbols
{"type":"enum","name":"E","symbols":["A"],"default":"B"} -> BadSymbols
{"type":"fixed","name":"F","size":-1} -> BadNumber
{"type":"fixed","name":"F","size":"1"} -> BadNumber
{"type":"fixed","name":"F","size":null} -> BadNumber
{"type":"fixed","name":"F","size":1048577} -> TooLarge"#;

/// As `FAULTS`, but of texts with aliases.
pub(crate) const ALIAS_FAULTS: &str =
    r#"{"type":"record","name":"Q","fields":[],"aliases":"A"} -> Unknown
{"type":"record","name":"Q","fields":[],"aliases":null} -> Unknown
{"type":"fixed","name":"Q","size":1,"aliases":["A",1]} -> Unknown
{"type":"enum","name":"Q","symbols":[],"aliases":{"A":"B"}} -> Unknown
{"type":"fixed","name":"Q","size":-1,"aliases":3} -> Unknown
{"type":"record","name":"Q","fields":[],"aliases":["1"]} -> BadName
{"type":"record","name":"Q","fields":3,"aliases":["1"]} -> BadName
{"type":"record","name":"Q","fields":[],"aliases":[""]} -> BadName
{"type":"enum","name":"Q","symbols":["1"],"aliases":["a."]} -> BadName
{"type":"fixed","name":"Q","size":-1,"aliases":[".a"]} -> BadName
{"type":"fixed","name":"Q","size":1,"aliases":["a..b"]} -> BadName
{"type":"fixed","name":"1","size":1,"aliases":3} -> BadName
{"type":"record","name":"T","fields":[{"name":"f","type":{"type":"fixed","name":"T","size":1,"aliases":3}}]} -> Redefined
{"type":"record","name":"T","fields":[{"name":"f","type":"int","aliases":"a"}]} -> Unknown
{"type":"record","name":"T","fields":[{"name":"f","type":"int","aliases":null}]} -> Unknown
{"type":"record","name":"T","fields":[{"name":"f","type":"float","aliases":[null]}]} -> Unknown
{"type":"record","name":"T","fields":[{"name":"f","type":"int","aliases":["a.b"]}]} -> BadName
{"type":"record","name":"T","fields":[{"name":"f","type":"float","aliases":["1"]}]} -> BadName
{"type":"record","name":"T","fields":[{"name":"1","type":"int","aliases":3}]} -> BadName"#;

/// A text, and the kinds of its nodes; of names the namespace is before a slash.
pub(crate) const KINDS: &str =
    r#"{"type":"record","name":"LongList","fields":[{"name":"value","type":"long"},{"name":"next","type":["null","LongList"]}]}
 -> LongList(value 1 [] None)(next 2 [] None) Long Union([3, 0]) Null

{"type":"record","name":"a.B","fields":[{"name":"c","type":{"type":"record","name":"C","fields":[
        {"name":"d","type":{"type":"record","name":"D","namespace":"","fields":[{"name":"e","type":"D"}]}},
        {"name":"f","type":{"type":"enum","name":"E","symbols":["A","B"],"default":"B"}},
        {"name":"g","type":{"type":"map","values":{"type":"array","items":"a.E"}}},
        {"name":"h","type":{"type":"fixed","name":"b.c.F","namespace":3,"size":1048576}},
        {"name":"i","type":"C"}]}}]}
 -> a/B(c 1 [] None) a/C(d 2 [] None)(f 3 [] None)(g 4 [] None)(h 6 [] None)(i 1 [] None) D(e 2 [] None) a/E(2 Some(1)) Map(5) Array(3) b.c/F(1048576)

{"type":"record","name":"a.b","aliases":["c","x.y","c"],"fields":[
        {"name":"d","aliases":["e","e","int"],"type":{"type":"fixed","name":"F","namespace":"","size":1,"aliases":["int","n.long","G"]}},
        {"name":"g","type":{"type":"enum","name":"m.E","symbols":[],"aliases":["F"]}},
        {"name":"h","type":{"type":"array","items":{"type":"string","aliases":3},"aliases":3}}]}
 -> a/b(d 1 ["e", "e", "int"] None)(g 2 [] None)(h 3 [] None) F(1) m/E(0 None) Array(4) Text"#;

/// A record whose one field has a type and a default.
pub(crate) const WITH_DEFAULT: &str =
    r#"{"type":"record","name":"T","fields":[{"name":"f","type":$}]}"#;

/// A type and a default in such a record, and the kinds of its nodes, which have the default.
pub(crate) const DEFAULTS: &str = r#""null","default":null -> T(f 1 [] Some(Null)) Null
"boolean","default":true -> T(f 1 [] Some(Boolean(true))) Boolean
"int","default":-2147483648 -> T(f 1 [] Some(Int(-2147483648))) Int
"long","default":9223372036854775807 -> T(f 1 [] Some(Long(9223372036854775807))) Long
"bytes","default":"a\u00ff" -> T(f 1 [] Some(Bytes([97, 255]))) Bytes
{"type":"fixed","name":"F","size":2},"default":"a\u00ff" -> T(f 1 [] Some(Fixed([97, 255]))) F(2)
"string","default":"\u00e9" -> T(f 1 [] Some(Text("é"))) Text
{"type":"enum","name":"E","symbols":["A","B"]},"default":"B" -> T(f 1 [] Some(Enum(1))) E(2 None)
["null","int"],"default":null -> T(f 1 [] Some(Union(0, Null))) Union([2, 3]) Null Int
{"type":"array","items":"int"},"default":[-1,2] -> T(f 1 [] Some(Array([Int(-1), Int(2)]))) Array(2) Int
{"type":"map","values":"long"},"default":{"b":2,"a":1} -> T(f 1 [] Some(Map([("a", Long(1)), ("b", Long(2))]))) Map(2) Long
{"type":"record","name":"R","fields":[{"name":"a","type":"boolean"}]},"default":{"x":[],"a":false} -> T(f 1 [] Some(Record([Boolean(false)]))) R(a 2 [] None) Boolean"#;

/// A type, and a default that is none of its data.
pub(crate) const BAD_DEFAULTS: &str = r#""int","default":2147483648 -> BadDefault
"int","default":"1" -> BadDefault
"long","default":9223372036854775808 -> BadDefault
"null","default":0 -> BadDefault
"boolean","default":0 -> BadDefault
"string","default":null -> BadDefault
"bytes","default":"\u0100" -> BadDefault
{"type":"fixed","name":"F","size":2},"default":"a" -> BadDefault
{"type":"enum","name":"E","symbols":["A"]},"default":"B" -> BadDefault
["int","null"],"default":null -> BadDefault
[],"default":null -> BadDefault
{"type":"array","items":"int"},"default":[1,null] -> BadDefault
{"type":"map","values":"int"},"default":{"a":null} -> BadDefault
{"type":"record","name":"R","fields":[{"name":"a","type":"int"}]},"default":{"b":1} -> BadDefault
{"type":"array","items":"int"},"default":{} -> BadDefault"#;

/// A record in a namespace, where a name is defined, with a field of a further type.
pub(crate) const WITH_FURTHER: &str =
    r#"{"type":"record","name":"a.R","fields":[{"name":"x","type":{"type":"fixed","name":"F","size":1}},{"name":"y","type":$}]}"#;

/// A further type in such a record, and the first fault.
pub(crate) const FURTHER_FAULTS: &str = r#"{"type":"fixed","name":"F","size":2} -> Redefined
{"type":"fixed","name":"a.F","size":2} -> Redefined
{"type":"fixed","name":"F","namespace":"a","size":2} -> Redefined
{"type":"record","name":"Q","namespace":"b","fields":[{"name":"f","type":{"type":"fixed","name":"F","namespace":"a","size":1}}]} -> Redefined
["F","a.F"] -> BadUnion
["a.F","null","F"] -> BadUnion
["R","F","a.R"] -> BadUnion
".F" -> Unknown
"b.F" -> Unknown
"a.b.F" -> Unknown
{"type":"fixed","name":".F","size":2} -> BadName
{"type":"fixed","name":"F","namespace":"a.","size":2} -> BadName
{"type":"fixed","name":"F","namespace":".a","size":2} -> BadName
{"type":"record","name":"Q","namespace":"","fields":[{"name":"f","type":"F"}]} -> Unknown"#;

/// A further type in such a record, and the kinds of its nodes.
pub(crate) const FURTHER_NAMES: &str =
    r#"{"type":"fixed","name":"F","namespace":"","size":2} -> a/R(x 1 [] None)(y 2 [] None) a/F(1) F(2)
{"type":"fixed","name":"F","namespace":"a.b","size":2} -> a/R(x 1 [] None)(y 2 [] None) a/F(1) a.b/F(2)
{"type":"fixed","name":"b.F","size":2} -> a/R(x 1 [] None)(y 2 [] None) a/F(1) b/F(2)
{"type":"record","name":"Q","namespace":"b","fields":[{"name":"f","type":"a.F"},{"name":"q","type":"Q"}]} -> a/R(x 1 [] None)(y 2 [] None) a/F(1) b/Q(f 1 [] None)(q 2 [] None)
["F","R"] -> a/R(x 1 [] None)(y 2 [] None) a/F(1) Union([1, 0])"#;

/// A text of most or of too many symbols, fields, levels, nodes or bytes, and how many nodes it has, or its fault.
pub(crate) const BOUNDS: &str = r#"{"type":"enum","name":"E","symbols":["S0"~4095 ,"S#"~]} -> 1

{"type":"enum","name":"E","symbols":["S0"~4096 ,"S#"~]} -> TooLarge

{"type":"record","name":"T","fields":[
{"name":"f0","type":{"type":"fixed","name":"F","size":0}}~1023 ,{"name":"f#","type":"F"}~]} -> 2

{"type":"record","name":"T","fields":[
{"name":"f0","type":{"type":"fixed","name":"F","size":0}}~1024 ,{"name":"f#","type":"F"}~]} -> TooLarge

~127 {"type":"array","items":~"int"~127 }~ -> 128

~128 {"type":"array","items":~"int"~128 }~ -> NotJson

{"type":"record","name":"T","fields":[{"name":"f0","type":"int"}~1022 ,{"name":"f#","type":"int"}~]} -> 1024

{"type":"record","name":"T","fields":[{"name":"f0","type":"int"}~1023 ,{"name":"f#","type":"int"}~]} -> TooLarge

"int"~262139  ~ -> 1

"int"~262140  ~ -> TooLarge"#;

/// Two texts, separated by a bar, and for each node of the one which names of the other's fixed types are its aliases:
/// `+`, or `-`.
pub(crate) const MARKS: &str = r#"{"type":"record","name":"a.b","aliases":["c","x.y","c"],"fields":[
        {"name":"d","aliases":["e","e","int"],"type":{"type":"fixed","name":"F","namespace":"","size":1,"aliases":["int","n.long","G"]}},
        {"name":"g","type":{"type":"enum","name":"m.E","symbols":[],"aliases":["F"]}},
        {"name":"h","type":{"type":"array","items":{"type":"string","aliases":3},"aliases":3}}]}|
[{"type":"fixed","name":"a.c","size":1},{"type":"fixed","name":"x.y","size":1},{"type":"fixed","name":"c","size":1},
        {"type":"fixed","name":"y","size":1},{"type":"fixed","name":"a.y","size":1},{"type":"fixed","name":"a.b","size":1},
        {"type":"fixed","name":"m.F","size":1},{"type":"fixed","name":"F","size":1},{"type":"fixed","name":"G","size":1},
        {"type":"fixed","name":"m.G","size":1}]
 -> ++-------- --------+- ------+--- ---------- ----------

{"type":"fixed","size":1,"namespace":"~60000 n~","name":"F","aliases":["A"~4999 ,"a#"~]}|
{"type":"record","name":"F","namespace":"~60000 n~","fields":[{"name":"a","type":{"type":"fixed","name":"A","size":1}},
        {"name":"b","type":{"type":"fixed","name":"a4999","size":1}},{"name":"c","type":{"type":"fixed","name":"a5000","size":1}}]} -> ++-

{"type":"fixed","size":1,"namespace":"~60000 n~","name":"F","aliases":["A"~4999 ,"a#"~]}|
{"type":"record","name":"F","namespace":"~59999 n~","fields":[{"name":"a","type":{"type":"fixed","name":"A","size":1}},
        {"name":"b","type":{"type":"fixed","name":"a4999","size":1}},{"name":"c","type":{"type":"fixed","name":"a5000","size":1}}]} -> ---"#;
