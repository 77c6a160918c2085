//! Schemas, and what is answered of them.

/// Schemas, and their nodes.
pub(crate) const NODES: &str = r#"{"type":"array","items":["null","long"]}
0 array /
1 union /items
2 null /items/0
3 long /items/1

{"type":"record","name":"shop.Order","fields":[{"name":"id","type":"long"},{"name":"at","type":{"type":"long","logicalType":"x"}},{"name":"lines","type":{"type":"map","values":{"type":"fixed","name":"F","size":2}}},{"name":"next","type":["null","Order"]},{"name":"kind","type":{"type":"enum","name":"other.K","symbols":["A"]}}]}
0 record shop.Order /
1 long /fields/0/type
2 long /fields/1/type
3 map /fields/2/type
4 fixed shop.F /fields/2/type/values
5 union /fields/3/type
6 null /fields/3/type/0
7 enum other.K /fields/4/type

"string"
0 string /

{"type":"record"}
bad schema 1 Unknown at /

{"type":"record","name":"T","fields":[{"name":"a","type":"int"},{"name":"b","type":["null",{"type":"array","items":"Adress"}]}]}
bad schema 1 Unknown at /fields/1/type/1/items: Adress

{"type":"record","name":"a.T","fields":[{"name":"x","type":{"type":"enum","name":"E","symbols":["1"]}}]}
bad schema 1 BadSymbols at /fields/0/type: E

["int",["long"]]
bad schema 1 BadUnion at /

{"type":"record","name":"T","fields":[{"name":"a","type":"int","default":"x"}]}
bad schema 1 BadDefault at /fields/0: a

{"type":"fixed","name":"F","size":1.5}
bad schema 1 BadNumber at /: F

{"type":"record","name":"T","fields":[{"name":"a","type":{"type":"record","name":"T\n","fields":[]}}]}
bad schema 1 BadName at /fields/0/type: T\n
"#;

/// Levels, two schemas, and what is answered of them.
pub(crate) const CHECKS: &str = r#"BACKWARD
"int"
"long"
compatible

FORWARD
"int"
"long"
NoMatch 0 0 / / long is not read as int

FULL
"int"
"long"
FORWARD NoMatch 0 0 / / long is not read as int

BACKWARD
{"type":"record","name":"a.T","fields":[{"name":"k","type":{"type":"enum","name":"K","symbols":["A","B","C"]}},{"name":"u","type":["int","string"]}]}
{"type":"record","name":"a.T","fields":[{"name":"u","type":["null","int"]},{"name":"k","type":{"type":"enum","name":"K","symbols":["B"]}},{"name":"x","type":"int"},{"name":"y","type":"a.K"}]}
NoDefault 0 0 / / fields without a default: x y
NoSymbol 1 4 /fields/0/type /fields/1/type symbols that the reader lacks: A C
NoBranch 4 1 /fields/1/type/1 /fields/0/type string goes into no branch of the union

BACKWARD
{"type":"map","values":"int"}
{"type":"map","values":"string"}
NoMatch 0 0 / / map of int is not read as map of string

FORWARD
{"type":"record","name":"T","fields":[{"name":"a","type":{"type":"array","items":{"type":"map","values":"long"}}}]}
{"type":"record","name":"T","fields":[{"name":"a","type":{"type":"array","items":{"type":"map","values":{"type":"fixed","name":"b.F","size":2}}}}]}
NoMatch 1 1 /fields/0/type /fields/0/type array of map of fixed b.F is not read as array of map of long

BACKWARD
{"type":"array","items":{"type":"array","items":"int"}}
{"type":"array","items":{"type":"map","values":"int"}}
NoMatch 0 0 / / array of array is not read as array of map

BACKWARD
"int"
"itn"
bad schema 2 Unknown at /: itn

BACKWARD
int
"itn"
bad schema 1 NotJson
"#;

/// Two schemas, and what becomes of messages between them.
pub(crate) const EXPLANATIONS: &str = r#"["null","int"]
["long","null"]
message: union
  branch 0, null: into branch 1, copied, null
  branch 1, int: into branch 0, promoted, int to long

{"type":"record","name":"shop.Order","fields":[{"name":"number","type":"int"},{"name":"note","type":"string"},{"name":"customer","type":{"type":"record","name":"Customer","fields":[{"name":"phone","type":["null","string"]}]}},{"name":"items","type":{"type":"array","items":{"type":"record","name":"Item","fields":[{"name":"parts","type":{"type":"array","items":"Item"}}]}}},{"name":"state","type":{"type":"enum","name":"State","symbols":["NEW","LOST"]}},{"name":"raw","type":"bytes"},{"name":"legacy","type":"string"}]}
{"type":"record","name":"shop.Order","fields":[{"name":"number","type":"long"},{"name":"memo","aliases":["note"],"type":"string"},{"name":"customer","type":{"type":"record","name":"Customer","fields":[{"name":"vip","type":"boolean"},{"name":"phone","type":["null","string"]}]}},{"name":"items","type":{"type":"array","items":{"type":"record","name":"Item","fields":[{"name":"parts","type":{"type":"array","items":"Item"}}]}}},{"name":"state","type":{"type":"enum","name":"State","symbols":["NEW","DONE"],"default":"DONE"}},{"name":"raw","type":"string"},{"name":"currency","type":"string","default":"EUR"}]}
message: record shop.Order
  number: promoted, int to long
  memo, renamed from note: copied, string
  customer: record shop.Customer
    vip: mismatch NoDefault 3 4
    phone: union
      branch 0, null: into branch 0, copied, null
      branch 1, string: into branch 1, copied, string
  items: array
    each item: record shop.Item
      parts: array
        each item: record shop.Item, as above
  state: enum shop.State
    NEW: copied
    LOST: default DONE
  raw: promoted, bytes to string, where they are UTF-8; else mismatch BytesNotText 11 12
  currency: default "EUR"
  legacy: dropped, string

{"type":"record","name":"A","fields":[{"name":"f","type":{"type":{"type":"record","name":"B","fields":[]}}}]}
{"type":"record","name":"A","fields":[{"name":"f","type":{"type":{"type":"record","name":"B","fields":[{"name":"g","type":["null","int"],"default":null},{"name":"h","type":{"type":"map","values":"long"},"default":{"b":2,"a":1}}]}}}]}
message: record A
  f: record B
    g: default null
    h: default {"a":1,"b":2}

"int"
"string"
message: mismatch NoMatch 0 0

"x"
"string"
bad schema 1 Unknown at /: x
"#;

/// A pair of schemas, one line each.
pub(crate) const PAIR: [&str; 2] = [
    r#"{"type":"record","name":"T","fields":[{"name":"a","type":["int","string"]}]}"#,
    r#"{"type":"record","name":"T","fields":[{"name":"b","aliases":["a"],"type":"long"}]}"#,
];

/// What becomes of messages between them, as JSON.
pub(crate) const PAIR_AS_JSON: &str =
    r#"[{"branch":null,"default":null,"depth":0,"fate":"parts","kind":null,"name":null,"part":"message","position":null,"reader":{"node":0,"path":"","type":"record T"},"renamed_from":null,"writer":{"node":0,"path":"","type":"record T"}},{"branch":null,"default":null,"depth":1,"fate":"parts","kind":null,"name":"b","part":"field","position":null,"reader":{"node":1,"path":"/fields/0/type","type":"long"},"renamed_from":"a","writer":{"node":1,"path":"/fields/0/type","type":"union"}},{"branch":null,"default":null,"depth":2,"fate":"promoted","kind":null,"name":null,"part":"branch","position":0,"reader":{"node":1,"path":"/fields/0/type","type":"long"},"renamed_from":null,"writer":{"node":2,"path":"/fields/0/type/0","type":"int"}},{"branch":null,"default":null,"depth":2,"fate":"mismatch","kind":"NoMatch","name":null,"part":"branch","position":1,"reader":{"node":1,"path":"/fields/0/type","type":"long"},"renamed_from":null,"writer":{"node":3,"path":"/fields/0/type/1","type":"string"}}]
"#;
