//! What the subcommands read and write, as their help shows it.

/// The lines of `transcode`.
pub(crate) const TRANSCODE: &str =
    "Reads the writer's schema in one line, the reader's in the next, and then payloads,
a line each, in lower-case hexadecimal. Writes a line for each payload: `done HEX`,
`mismatch KIND W R`, `malformed KIND at N`, `output too large`, `bad hex` or `too large`.

Example:
  printf '%s\\n' '\"int\"' '\"long\"' 36 | avrogate transcode
  done 36";

/// The lines of `compile`.
pub(crate) const COMPILE: &str =
    "Reads the writer's schema in one line and the reader's in the next. Writes the listing
of the program that transcodes between them, or with --image its image.

Example:
  printf '%s\\n' '\"int\"' '\"long\"' | avrogate compile
  avro program 1
  0 INT
  1 HALT";

/// The lines of `run`.
pub(crate) const RUN: &str =
    "Reads a listing, the line `end`, and then payloads, a line each, in lower-case hexadecimal,
whose pieces bars part. Writes a line for each payload: how the program ended, and ` count N`.

Example:
  printf '%s\\n' 'avro program 1' '0 INT' '1 HALT' end 36 | avrogate run
  done 36 count 2";

/// The lines of `debug`.
pub(crate) const DEBUG: &str =
    "Reads two schemas and a payload, a line each, and then commands, a line each: `break A`,
`clear A`, `step N`, `go N`, `show`, `list`. Writes what `show` and `list` ask for.

Example:
  printf '%s\\n' '\"int\"' '\"int\"' 36 list | avrogate debug
  avro program 1
  0 INT
  1 HALT";

/// The lines of `replay`.
pub(crate) const REPLAY: &str =
    "Reads events, a line each, and writes a reply to each: of the registry `register S TEXT`, `level S LEVEL` (S is a
subject, `*` for all) and `publish W R`; `begin W R`; and of a session S `piece S HEX`, `finish S`,
`steal S K`, `slice S K N`, `walk S N`, `go S N`, `break S A`, `clear S A`, `refuse S`, `show S`, `list S`
and `result S`. K is a worker, N a number of rows, A an address.

Example:
  printf '%s\\n' 'register s \"int\"' | avrogate replay
  id 1";

/// The lines of `nodes`.
pub(crate) const NODES: &str =
    "Reads a schema in one line. Writes a line for each of its nodes: its number, what it is, its full name where
it has one, and its path in the schema's JSON as a JSON Pointer, `/` for the root.
A bad schema is one line, with 1: `bad schema 1 KIND`.

Example:
  echo '{\"type\":\"array\",\"items\":\"long\"}' | avrogate nodes
  0 array /
  1 long /items";

/// The lines of `check`.
pub(crate) const CHECK: &str =
    "Reads two schemas, a line each: by the level BACKWARD the first writes and the second reads.
Writes `compatible`, with 0; or, with 1, a line for each pair of nodes that keeps the reader from
reading all: KIND W R, the path of each node, and what it is about. With FULL each line begins
with the level that it is of. A bad schema is one line, with 1.

Example:
  printf '%s\\n' '\"long\"' '\"int\"' | avrogate check
  NoMatch 0 0 / / long is not read as int";

/// The lines of `explain`.
pub(crate) const EXPLAIN: &str =
    "Reads the writer's schema in one line and the reader's in the next. Writes what becomes of every part of a
message, a line each, below what it is a part of: copied, promoted, renamed, default, dropped, mismatch.
With --node W R only the pair of a `mismatch KIND W R`, and where its nodes are.

Example:
  printf '%s\\n' '[\"null\",\"int\"]' '[\"long\",\"null\"]' | avrogate explain
  message: union
    branch 0, null: into branch 1, copied, null
    branch 1, int: into branch 0, promoted, int to long";

/// What `serve` answers and prints.
pub(crate) const SERVE: &str =
    "Answers HTTP: the routes of the schema registry, and POST /transcode/ID. There is neither TLS nor
authorisation, so an address that others reach wants a proxy before it.
Prints `listening P`, and `served N` at the end; or `cannot listen on ADDRESS: WHY`, and ends with 3.
With --store each schema and each level that was answered is in the file, and is there after a restart.
A file that cannot be opened, or is no store, is told by a line with its name, and ends it with 3.
With --upstream it has no ids of its own: it asks the registry at that URL, by http, for the schema of an id
once, and rewrites messages by its ids; with --store too these schemas are in the file, for a later start.
The file of credentials has one line, `user:password`.
With --http11 connections stay open for more requests, contents may come in chunks, and Expect is answered.
With --log each answer is a line on standard error: METHOD PATH STATUS RECEIVED SENT MICROSECONDS;
and each question to the registry at that URL: fetch ID CODE MICROSECONDS.

Example:
  avrogate serve --port 8081 &
  curl localhost:8081/subjects";

/// The lines of `export`.
pub(crate) const EXPORT: &str =
    "Reads the file of a store. Writes a line of `replay` for each command that it holds, in their order:
`register SUBJECT TEXT` or `level SUBJECT LEVEL`. A damaged file is told by a line, with 3.

Example:
  avrogate export < registry.store | avrogate import --store copy.store
  imported 2";

/// The lines of `import`.
pub(crate) const IMPORT: &str =
    "Reads lines of `replay`: `register SUBJECT TEXT` and `level SUBJECT LEVEL`; an empty line, and one
that begins with `#`, says nothing. Makes a store of them in a new file, and writes `imported N`.
A line that is not taken is told by its number, with 3.

Example:
  printf '%s\\n' 'register s \"int\"' 'level s FULL' | avrogate import --store registry.store
  imported 2";
