//! Tests of `store_commands`: stores as lines and back. The checks of lines are those of `sha256sum`.

use crate::disks::{is_begun, is_removed};
use crate::same::same;
use journal_file::JournalFile;
use registry_store::{CommandStore, KeptSchema, UpstreamStore};
use schema_registry::{KeptRegistry, Registry, SharedRegistry};
use sqlite_disk::Disk;
use std::alloc::{AllocError, Global};
use std::io;
use std::io::Write;
use store_commands::{
    StoreRefusal, UntakenLine, export, import, import_lines, open_registry, open_schemas,
};

/// A store of two commands, with what a torn write left after its gate.
const STORE: &str =
    "++register 1 orders {\"type\":\"record\",\"name\":\"Order\",\"fields\":[{\"name\":\"id\",\"type\":\"long\"}]} b40d8a6f924a9af0\n++level * FULL 4026cada239cc4ff\n--register 2 or";

/// What it is exported as.
const LINES: &str =
    "register orders {\"type\":\"record\",\"name\":\"Order\",\"fields\":[{\"name\":\"id\",\"type\":\"long\"}]}\nlevel * FULL\n";

/// A writer that takes nothing.
#[derive(Drop)]
struct Broken;

impl Write for Broken {
    fn write(&mut self, _bytes: &[u8]) -> io::Result<usize> {
        Err(io::Error::from(io::ErrorKind::BrokenPipe))
    }

    fn flush(&mut self) -> io::Result<()> {
        Ok(())
    }
}

/// Returns what is written of the bytes of a store, or why nothing is.
fn exported(alloc: Global, store: &str) -> Result<String, AllocError> {
    let mut reader = store.as_bytes();
    let mut output = Vec::new(alloc);
    match export(alloc, &mut reader, &mut output) {
        Ok(()) => String::from_str(alloc, std::str::from_utf8(&output).unwrap_or("no text")),
        Err(fault) => format!(in alloc; "{fault}"),
    }
}

/// Returns what is written of each of some stores, or why nothing is, with `;` after it.
fn all_exported(alloc: Global, stores: &[&str]) -> Result<String, AllocError> {
    let mut text = String::new(alloc);
    for store in stores {
        let written = exported(alloc, store)?;
        write!(text, "{written};\n")?;
    }
    Ok(text)
}

/// Stores, and then files that are none.
const STORES: [&str; 9] = [
    STORE,
    "--",
    "++register 2 a-b [%0A \"null\",%0D%0A\"int\"] 6f3a44eebdc8c39b\n--",
    "",
    "++level * FULL 4026cada239cc4ff\nX",
    "++level * FULL 4026cada239cc4fe\n--",
    "++levels * FULL 727a9868f1d3cb78\n--",
    "++level * FULL 4026cada239cc4ff\n++register 12 a%20b \"int\" 950fd821b3c37766\n--",
    "++level %2A NONE b7f97e69baac46f9\n--",
];

/// What is written of them.
const EXPORTED: &str = "\
register orders {\"type\":\"record\",\"name\":\"Order\",\"fields\":[{\"name\":\"id\",\"type\":\"long\"}]}
level * FULL
;
;
register a-b [  \"null\",  \"int\"]
;
the file is damaged at byte 0, in line 1;
the file is damaged at byte 32, in line 2;
line 1: the check at the end of the line is not that of the line;
line 1: no command is written as this line;
line 2: no registry accepts the command;
line 1: no registry accepts the command;
";

/// Returns whether a store is exported to a writer that takes nothing.
fn is_exported_to_nothing(alloc: Global) -> bool {
    let mut reader = STORE.as_bytes();
    export(alloc, &mut reader, &mut Broken).is_ok()
}

#[test]
fn stores_are_exported(rt: HostRuntime) -> Result<(), AllocError> {
    let alloc = rt.alloc();
    assert!(rt; !is_exported_to_nothing(alloc));
    let written = all_exported(alloc, &STORES)?;
    same(&rt, written.as_str(), EXPORTED);
    Ok(())
}

/// Takes lines in a registry of which nothing is kept. Returns how many commands they say, or which line is not taken.
fn taken(alloc: Global, lines: &str) -> Result<usize, UntakenLine> {
    let keeper: Option<CommandStore<JournalFile>> = None;
    let mut kept = KeptRegistry::over(Registry::new(alloc), keeper);
    import_lines(alloc, &mut kept, lines.as_bytes())
}

/// Returns what comes of each of some texts of lines, as a line.
fn all_taken(alloc: Global, texts: &[&str]) -> Result<String, AllocError> {
    let mut text = String::new(alloc);
    for lines in texts {
        match taken(alloc, lines) {
            Ok(count) => write!(text, "{count}\n")?,
            Err(line) => write!(text, "{line}\n")?,
        }
    }
    Ok(text)
}

/// Lines of `replay`.
const REPLAYED: [&str; 8] = [
    LINES,
    "",
    "# a comment\n\nregister s \"int\"\nregister s \"int\"",
    "register s \"int\"\n\nregister s \"string\"\n",
    "level s FUL\n",
    "level s FULL\nregister s {\n",
    "publish 1 1\n",
    " \n",
];

/// What comes of them.
const TAKEN: &str = "\
2
0
2
line 3: refused Incompatible
line 1: refused BadLevel
line 2: refused BadSchema
line 1: bad line
line 1: bad line
";

#[test]
fn lines_are_taken(rt: HostRuntime) -> Result<(), AllocError> {
    let answers = all_taken(rt.alloc(), &REPLAYED)?;
    same(&rt, answers.as_str(), TAKEN);
    Ok(())
}

/// Makes a store of lines. Returns what is written, or why the store is not made.
fn imported(rt: &HostRuntime, path: &str, lines: &str) -> Result<String, AllocError> {
    let alloc = rt.alloc();
    let mut reader = lines.as_bytes();
    let mut output = Vec::new(alloc);
    match import(rt, alloc, path, &mut reader, &mut output) {
        Ok(()) => String::from_str(alloc, std::str::from_utf8(&output).unwrap_or("no text")),
        Err(fault) => format!(in alloc; "{fault}\n"),
    }
}

/// Makes a store of lines, and writes that to a writer that takes nothing. Returns the fault.
fn fault_of_import(rt: &HostRuntime, path: &str, lines: &str) -> Result<String, AllocError> {
    let mut reader = lines.as_bytes();
    match import(rt, rt.alloc(), path, &mut reader, &mut Broken) {
        Ok(()) => String::from_str(rt.alloc(), "imported"),
        Err(fault) => format!(in rt.alloc(); "{fault}"),
    }
}

/// Returns what is found of the id 1 in a registry that is opened, or why it is not opened.
fn word_of(opened: &Result<SharedRegistry, StoreRefusal<'_>>) -> &'static str {
    match opened {
        Ok(registry) => {
            if registry.find(1).is_some() {
                "has the id 1"
            } else {
                "has no id 1"
            }
        }
        Err(StoreRefusal::Open { .. }) => "not opened",
        Err(StoreRefusal::Contents { .. }) => "no registry",
        Err(_) => "another refusal",
    }
}

/// Opens the registry at a path. Returns what comes of it.
fn opened(rt: &HostRuntime, path: &str) -> &'static str {
    word_of(&open_registry(rt, rt.alloc(), path))
}

/// Opens the registry at a path, and once more while it is open. Returns what comes of both.
fn opened_twice(rt: &HostRuntime, path: &str) -> [&'static str; 2] {
    let registry = open_registry(rt, rt.alloc(), path);
    let again = opened(rt, path);
    [word_of(&registry), again]
}

/// Returns what comes of a store that is made once, and is made and opened again, each as a line.
fn made_and_opened(rt: &HostRuntime) -> Result<String, AllocError> {
    const FOLDER: &str = "store_commands_test";
    const PATH: &str = "store_commands_test/a";
    let is_begun = is_begun(rt, FOLDER);
    let made = imported(rt, PATH, LINES)?;
    let made_again = imported(rt, PATH, LINES)?;
    let [first, second] = opened_twice(rt, PATH);
    let other = opened(rt, "store_commands_test/b");
    let is_removed = is_removed(rt, FOLDER);
    format!(in rt.alloc();
        "begun {is_begun}\n{made}{made_again}{first}\n{second}\n{other}\nremoved {is_removed}"
    )
}

/// What `made_and_opened` returns.
const MADE_AND_OPENED: &str = "\
begun true
imported 2
cannot make the store store_commands_test/a: it is there already
has the id 1
not opened
has no id 1
removed true";

#[test]
fn stores_are_made_once_and_opened(rt: HostRuntime) -> Result<(), AllocError> {
    let answers = made_and_opened(&rt)?;
    same(&rt, answers.as_str(), MADE_AND_OPENED);
    Ok(())
}

/// The URL of an upstream registry.
const URL: &str = "http://registry:8081";

/// Returns the ids of schemas as a text.
fn ids_of(alloc: Global, schemas: &[KeptSchema]) -> Result<String, AllocError> {
    let mut text = String::new(alloc);
    for schema in schemas {
        write!(text, "{}, ", schema.id)?;
    }
    Ok(text)
}

/// Adds a schema of this id to a store. Returns the ids of those that it was opened with.
fn keep_in<D: Disk>(
    alloc: Global,
    store: &mut UpstreamStore<D>,
    id: u32,
) -> Result<String, AllocError> {
    match store.store.keep_registration(id, URL, "\"int\"") {
        Ok(()) => ids_of(alloc, &store.schemas),
        Err(_) => String::from_str(alloc, "not kept"),
    }
}

/// Adds a schema of this id to the store at a path. Returns the ids of those that it had.
fn keep_one(rt: &HostRuntime, path: &str, id: u32) -> Result<String, AllocError> {
    match open_schemas(rt, rt.alloc(), path, URL) {
        Ok(mut store) => keep_in(rt.alloc(), &mut store, id),
        Err(_) => String::from_str(rt.alloc(), "not opened"),
    }
}

/// Adds three schemas to the store at a path. Returns the ids of those that it had each time, as a line.
fn keep_three(rt: &HostRuntime, path: &str) -> Result<String, AllocError> {
    let mut text = String::new(rt.alloc());
    for id in [100_001, 7, 4_294_967_295] {
        let ids = keep_one(rt, path, id)?;
        write!(text, "{ids}then {id}\n")?;
    }
    Ok(text)
}

/// Opens the store at a path as that of another upstream registry. Returns what comes of it.
fn opened_by_another(rt: &HostRuntime, path: &str) -> &'static str {
    match open_schemas(rt, rt.alloc(), path, "http://registry:8082") {
        Ok(_) => "opened",
        Err(StoreRefusal::Schemas { .. }) => "of another registry",
        Err(_) => "another refusal",
    }
}

/// Returns what comes of schemas that are kept in a store, and of other uses of its file, each as a line.
fn schemas_kept(rt: &HostRuntime) -> Result<String, AllocError> {
    const FOLDER: &str = "store_commands_schemas";
    const PATH: &str = "store_commands_schemas/a";
    let is_begun = is_begun(rt, FOLDER);
    let three = keep_three(rt, PATH)?;
    let other = opened_by_another(rt, PATH);
    let registry = opened(rt, PATH);
    let last = keep_one(rt, PATH, 8)?;
    let is_removed = is_removed(rt, FOLDER);
    format!(in rt.alloc();
        "begun {is_begun}\n{three}{other}\n{registry}\n{last}removed {is_removed}"
    )
}

/// What `schemas_kept` returns.
const SCHEMAS_KEPT: &str = "\
begun true
then 100001
100001, then 7
100001, 7, then 4294967295
of another registry
no registry
100001, 7, 4294967295, removed true";

#[test]
fn schemas_of_an_upstream_registry_are_kept(rt: HostRuntime) -> Result<(), AllocError> {
    let answers = schemas_kept(&rt)?;
    same(&rt, answers.as_str(), SCHEMAS_KEPT);
    Ok(())
}

/// Returns what comes of stores whose lines are to be counted to a writer that takes nothing, each as a line.
fn unwritten(rt: &HostRuntime) -> Result<String, AllocError> {
    const FOLDER: &str = "store_commands_broken";
    let is_begun = is_begun(rt, FOLDER);
    let first = fault_of_import(rt, "store_commands_broken/a", LINES)?;
    let second = fault_of_import(rt, "store_commands_broken/b", "level s FUL\n")?;
    let is_removed = is_removed(rt, FOLDER);
    format!(in rt.alloc(); "begun {is_begun}\n{first}\n{second}\nremoved {is_removed}")
}

/// What `unwritten` returns.
const UNWRITTEN: &str = "\
begun true
the output cannot be written
line 1: refused BadLevel; the store store_commands_broken/b is left with the lines before it
removed true";

#[test]
fn an_output_that_is_not_written_is_a_fault(rt: HostRuntime) -> Result<(), AllocError> {
    let answers = unwritten(&rt)?;
    same(&rt, answers.as_str(), UNWRITTEN);
    Ok(())
}
