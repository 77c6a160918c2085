//! Worked rows: lines of a command, each followed by the line of its answer.

/// Under BACKWARD: the record T, again, with a field more, and with a default for it; then all questions; and at last T
/// again, which the subject has, though its level would refuse it beside the latest version.
pub(crate) const VERSIONS: &str = r#"level s
BACKWARD
subjects
names []
register s {"type":"record","name":"T","fields":[{"name":"a","type":"long"},{"name":"b","type":"string"}]}
id 1
register s {"type":"record","name":"T","fields":[{"name":"a","type":"long"},{"name":"b","type":"string"}]}
id 1
register s {"type":"record","name":"T","fields":[{"name":"a","type":"long"},{"name":"b","type":"string"},{"name":"d","type":"int"}]}
refused Incompatible
register s {"type":"record","name":"T","fields":[{"name":"a","type":"long"},{"name":"b","type":"string"},{"name":"d","type":"int","default":0}]}
id 2
schema 1
text {"fields":[{"name":"a","type":"long"},{"name":"b","type":"string"}],"name":"T","type":"record"}
schema 3
refused NoSchema
schema 0
refused NoSchema
subjects
names ["s"]
versions s
numbers [1, 2]
version s 1
entry s 1 1 {"fields":[{"name":"a","type":"long"},{"name":"b","type":"string"}],"name":"T","type":"record"}
version s latest
entry s 2 2 {"fields":[{"name":"a","type":"long"},{"name":"b","type":"string"},{"default":0,"name":"d","type":"int"}],"name":"T","type":"record"}
version s 3
refused NoVersion
lookup s { "name": "T", "type": "record", "fields": [ {"name":"a","type":"long"}, {"name":"b","type":"string"} ] }
entry s 1 1 {"fields":[{"name":"a","type":"long"},{"name":"b","type":"string"}],"name":"T","type":"record"}
lookup s "int"
refused NoSchema
check s 1 {"type":"record","name":"T","fields":[{"name":"a","type":"long"},{"name":"b","type":"string"},{"name":"d","type":"int"}]}
compatible false
check s latest {"type":"record","name":"T","fields":[{"name":"a","type":"long"},{"name":"b","type":"string"},{"name":"d","type":"int"}]}
compatible true
set s NONE
NONE
level s
NONE
level *
BACKWARD
check s 1 "int"
compatible true
register s "int"
id 3
register s {"type":"record","name":"T","fields":[{"name":"a","type":"long"},{"name":"b","type":"string"}]}
id 1
versions s
numbers [1, 2, 3]
set s BACKWARD
BACKWARD
check s latest {"type":"record","name":"T","fields":[{"name":"a","type":"long"},{"name":"b","type":"string"}]}
compatible false
register s {"type":"record","name":"T","fields":[{"name":"a","type":"long"},{"name":"b","type":"string"}]}
id 1
versions s
numbers [1, 2, 3]
"#;

/// Under FORWARD the older schema reads what the new one writes.
pub(crate) const FORWARD: &str = r#"set s FORWARD
FORWARD
register s {"type":"record","name":"T","fields":[{"name":"a","type":"long"},{"name":"b","type":"string"}]}
id 1
register s {"type":"record","name":"T","fields":[{"name":"a","type":"long"},{"name":"b","type":"string"},{"name":"d","type":"int"}]}
id 2
register s {"type":"record","name":"T","fields":[{"name":"a","type":"long"}]}
refused Incompatible
check s 1 {"type":"record","name":"T","fields":[{"name":"a","type":"long"}]}
compatible false
check s 1 {"type":"record","name":"T","fields":[{"name":"a","type":"long"},{"name":"b","type":"string"},{"name":"d","type":"int"}]}
compatible true
"#;

/// Under FULL each reads what the other writes.
pub(crate) const FULL: &str = r#"set s FULL
FULL
register s {"type":"record","name":"T","fields":[{"name":"a","type":"long"},{"name":"b","type":"string"}]}
id 1
register s {"type":"record","name":"T","fields":[{"name":"a","type":"long"},{"name":"b","type":"string"},{"name":"d","type":"int"}]}
refused Incompatible
register s {"type":"record","name":"T","fields":[{"name":"a","type":"long"}]}
refused Incompatible
register s {"type":"record","name":"T","fields":[{"name":"a","type":"long"},{"name":"b","type":"string"},{"name":"d","type":"int","default":0}]}
id 2
check s 1 {"type":"record","name":"T","fields":[{"name":"a","type":"long"}]}
compatible false
check s latest {"type":"record","name":"T","fields":[{"name":"a","type":"long"},{"name":"b","type":"string"},{"name":"d","type":"int","default":0}]}
compatible true
"#;

/// Under BACKWARD the latest version alone is compared.
pub(crate) const LATEST: &str =
    r#"register s {"type":"record","name":"V","fields":[{"name":"a","type":"long"}]}
id 1
register s {"type":"record","name":"V","fields":[{"name":"a","type":"long"},{"name":"b","type":"string","default":""}]}
id 2
register s {"type":"record","name":"V","fields":[{"name":"a","type":"long"},{"name":"b","type":"string"}]}
id 3
"#;

/// Under a transitive level all versions are compared.
pub(crate) const TRANSITIVE: &str = r#"set b BACKWARD_TRANSITIVE
BACKWARD_TRANSITIVE
register b {"type":"record","name":"V","fields":[{"name":"a","type":"long"}]}
id 1
register b {"type":"record","name":"V","fields":[{"name":"a","type":"long"},{"name":"b","type":"string","default":""}]}
id 2
register b {"type":"record","name":"V","fields":[{"name":"a","type":"long"},{"name":"b","type":"string"}]}
refused Incompatible
set f FORWARD_TRANSITIVE
FORWARD_TRANSITIVE
register f {"type":"record","name":"V","fields":[{"name":"a","type":"long"},{"name":"b","type":"string"}]}
id 3
register f {"type":"record","name":"V","fields":[{"name":"a","type":"long"},{"name":"b","type":"string","default":""}]}
id 2
register f {"type":"record","name":"V","fields":[{"name":"a","type":"long"}]}
refused Incompatible
set u FULL_TRANSITIVE
FULL_TRANSITIVE
register u {"type":"record","name":"V","fields":[{"name":"a","type":"long"},{"name":"b","type":"string"}]}
id 3
register u {"type":"record","name":"V","fields":[{"name":"a","type":"long"},{"name":"b","type":"string","default":""}]}
id 2
register u {"type":"record","name":"V","fields":[{"name":"a","type":"long"}]}
refused Incompatible
set u FULL
FULL
register u {"type":"record","name":"V","fields":[{"name":"a","type":"long"}]}
id 1
versions u
numbers [1, 2, 3]
"#;

/// A subject's own level goes before the global one.
pub(crate) const OWN: &str = r#"register s "int"
id 1
register t "int"
id 1
set t BACKWARD_TRANSITIVE
BACKWARD_TRANSITIVE
set * NONE
NONE
level *
NONE
level s
NONE
level t
BACKWARD_TRANSITIVE
register s "string"
id 2
register t "string"
refused Incompatible
check s 1 "null"
compatible true
check t 1 "null"
compatible false
set t NONE
NONE
register t "string"
id 2
subjects
names ["s", "t"]
"#;

/// One schema under two subjects, and what counts as a name.
pub(crate) const SUBJECTS: &str =
    r#"register s {"type":"record","name":"T","fields":[{"name":"a","type":"long"},{"name":"b","type":"string"}]}
id 1
register u {"name":"T","fields":[{"type":"long","name":"a"},{"type":"string","name":"b"}],"type":"record"}
id 1
version s latest
entry s 1 1 {"fields":[{"name":"a","type":"long"},{"name":"b","type":"string"}],"name":"T","type":"record"}
version u 1
entry u 1 1 {"fields":[{"name":"a","type":"long"},{"name":"b","type":"string"}],"name":"T","type":"record"}
register u "string"
refused Incompatible
register Az.0_9- "string"
id 2
subjects
names ["Az.0_9-", "s", "u"]
set only FULL
FULL
subjects
names ["Az.0_9-", "s", "u"]
versions only
refused NoSubject
set * FORWARD_TRANSITIVE
FORWARD_TRANSITIVE
level u
FORWARD_TRANSITIVE
level only
FULL
level never
FORWARD_TRANSITIVE
"#;

/// What is refused, and in which order.
pub(crate) const REFUSALS: &str = r#"register  "int"
refused BadSubject
register a/b x
refused BadSubject
versions a%
refused BadSubject
version a+ 0
refused BadSubject
lookup \u00e9 x
refused BadSubject
check a:b 0 x
refused BadSubject
set a@ NONE
refused BadSubject
level a~
refused BadSubject
set s none
refused BadLevel
set s FULL_
refused BadLevel
version s 0
refused BadVersion
version s 2147483648
refused BadVersion
check s 0 x
refused BadVersion
check s 2147483648 "int"
refused BadVersion
register s x
refused BadSchema NotJson
register s "float"
refused BadSchema OutOfProfile
register s ["int","int"]
refused BadSchema BadUnion
lookup s "C"
refused BadSchema Unknown
check s 1 {"type":"fixed","name":"F","size":-1}
refused BadSchema BadNumber
versions s
refused NoSubject
version s 1
refused NoSubject
lookup s "int"
refused NoSubject
check s latest "int"
refused NoSubject
schema 1
refused NoSchema
register s "int"
id 1
register s "x"
refused BadSchema Unknown
version s 2
refused NoVersion
version s 2147483647
refused NoVersion
check s 2 "int"
refused NoVersion
lookup s "long"
refused NoSchema
schema 2
refused NoSchema
schema 4294967295
refused NoSchema
register s "string"
refused Incompatible
versions s
numbers [1]
subjects
names ["s"]
"#;

/// What levels are called.
pub(crate) const LEVELS: &str = "set s BACKWARD
BACKWARD
set s BACKWARD_TRANSITIVE
BACKWARD_TRANSITIVE
set s FORWARD
FORWARD
set s FORWARD_TRANSITIVE
FORWARD_TRANSITIVE
set s FULL
FULL
set s FULL_TRANSITIVE
FULL_TRANSITIVE
set s NONE
NONE
set s BACKWARDS
refused BadLevel
set s
refused BadLevel
level s
NONE
";

/// A level and a version for the subject with a number, and one version more for the first one.
pub(crate) const NUMBERED: &str = r#"set s# NONE
NONE
register s# {"type":"fixed","name":"F","size":#}
id #
register s1 {"type":"fixed","name":"F","size":#}
id #
"#;

/// What is answered once 30 numbers had these.
pub(crate) const MANY: &str = r#"versions s30
numbers [1]
version s1 latest
entry s1 30 30 {"name":"F","size":30,"type":"fixed"}
level s30
NONE
lookup s1 {"type":"fixed","name":"F","size":15}
entry s1 15 15 {"name":"F","size":15,"type":"fixed"}
"#;

/// A schema for each id.
pub(crate) const EACH_ID: &str = r#"set s NONE
NONE
register s {"type":"fixed","name":"F","size":#}
id #
"#;

/// What is answered once each id has a schema; one that the level refuses is reported as that.
pub(crate) const NO_IDS: &str = r#"register s {"type":"fixed","name":"F","size":0}
refused Full
register u {"type":"fixed","name":"F","size":0}
refused Full
register s {"type":"fixed","name":"F","size":7}
id 7
register u {"type":"fixed","name":"F","size":4096}
id 4096
subjects
names ["s", "u"]
set s BACKWARD
BACKWARD
register s "int"
refused Incompatible
"#;

/// A version for each subject.
pub(crate) const EACH_SUBJECT: &str = r#"register s# "int"
id 1
"#;

/// What is answered once there are as many subjects as there may be.
pub(crate) const NO_SUBJECTS: &str = r#"register other "int"
refused Full
register other "long"
refused Full
register s7 "string"
refused Incompatible
register s7 "long"
id 2
versions s7
numbers [1, 2]
versions other
refused NoSubject
"#;

/// A level for each subject.
pub(crate) const EACH_LEVEL: &str = "set s# NONE
NONE
";

/// What is answered once as many subjects have a level as may have one.
pub(crate) const NO_LEVELS: &str = "set other FULL
refused Full
level other
BACKWARD
set s4095 FULL
FULL
set * FORWARD
FORWARD
level s4095
FULL
level other
FORWARD
";

/// Commands with their answers, look-ups of ids with the texts that they show, and registrations with their receipts.
pub(crate) const SHARED: &str = r#"find 1
none
register  x
refused BadSubject
register s x
refused BadSchema NotJson
register s "int"
id 1
find 1
"int"
register s "string"
refused Incompatible
find 2
none
schema 2
refused NoSchema
register u "string"
id 2
find 2
"string"
receipt "int"
1 "int"
receipt  "int"
1 "int"
receipt "string"
refused Incompatible
receipt "long"
3 "long"
find 3
"long"
find 0
none
find 4096
none
find 4097
none
find 4294967295
none
"#;
