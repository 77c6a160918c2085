//! Tests of `UpstreamStore`, the store of an upstream registry's schemas, over a file in memory.

use crate::disks::file_of;
use crate::same::same;
use registry_store::{KeptSchema, UpstreamStore};
use sqlite_disk::Disk;
use std::alloc::{AllocError, Global};

/// Returns schemas as a text, each as a line.
fn text_of(alloc: Global, schemas: &[KeptSchema]) -> Result<String, AllocError> {
    let mut text = String::new(alloc);
    for schema in schemas {
        write!(text, "{} {}\n", schema.id, schema.text)?;
    }
    Ok(text)
}

/// Returns the schemas that a disk has of one upstream registry, each as a line, or why it has none.
fn schemas_on<D: Disk + Drop>(alloc: Global, disk: D) -> Result<String, AllocError> {
    if !disk.may_be_used() {
        return String::from_str(alloc, "no disk");
    }
    match UpstreamStore::open(alloc, disk, "http://registry:8081/prefix") {
        Ok(found) => text_of(alloc, &found.schemas),
        Err((fault, _disk)) => format!(in alloc; "{fault}"),
    }
}

/// Returns the schemas of a store of these bytes, each as a line, or why it is none.
fn schemas_of(alloc: Global, bytes: &str) -> Result<String, AllocError> {
    match file_of(alloc, bytes.as_bytes()) {
        Ok(file) => schemas_on(alloc, file),
        Err(_) => String::from_str(alloc, "no file"),
    }
}

/// Three schemas, with checks that `sha256sum` gave.
const STORE: &str = "\
++register 100001 http://registry:8081/prefix \"int\" 7787c3516101e4bd
++register 4294967295 http://registry:8081/prefix {\"type\":\"string\"} c49f282489b61931
++register 7 http://registry:8081/prefix \"long\" 35722ee73a57aacd
--";

/// What `STORE` has.
const SCHEMAS: &str = "\
100001 \"int\"
4294967295 {\"type\":\"string\"}
7 \"long\"
";

#[test]
fn a_store_has_its_schemas_in_order(rt: HostRuntime) -> Result<(), AllocError> {
    let schemas = schemas_of(rt.alloc(), STORE)?;
    same(&rt, schemas.as_str(), SCHEMAS);
    let none = schemas_of(rt.alloc(), "--")?;
    same(&rt, none.as_str(), "");
    Ok(())
}

/// Returns why each of some files is no store of the schemas of that registry, as a line.
fn refusals_of(alloc: Global, files: &[&str]) -> Result<String, AllocError> {
    let mut text = String::new(alloc);
    for file in files {
        let refusal = schemas_of(alloc, file)?;
        write!(text, "{refusal}\n")?;
    }
    Ok(text)
}

/// Files of other commands: a registry's own, a schema of the URL without its prefix, a level, and a registry's own
/// after a schema.
const OTHERS: [&str; 4] = [
    "++register 1 orders \"int\" 22b20c4a80590a42\n--",
    "++register 100001 http://registry:8081 \"int\" e3102a15cb84a40f\n--",
    "++level * FULL 4026cada239cc4ff\n--",
    "++register 7 http://registry:8081/prefix \"long\" 35722ee73a57aacd\n\
     ++register 1 orders \"int\" 22b20c4a80590a42\n--",
];

/// Why they are refused.
const OTHERS_REFUSED: &str = "\
line 1 has no schema of this upstream registry
line 1 has no schema of this upstream registry
line 1 has no schema of this upstream registry
line 2 has no schema of this upstream registry
";

#[test]
fn a_store_of_another_registry_is_refused(rt: HostRuntime) -> Result<(), AllocError> {
    let refusals = refusals_of(rt.alloc(), &OTHERS)?;
    same(&rt, refusals.as_str(), OTHERS_REFUSED);
    Ok(())
}

/// A file that is none of lines, and one whose line has another check.
const DAMAGED: [&str; 2] = [
    "register 7 a b\n",
    "++register 7 http://registry:8081/prefix \"long\" 35722ee73a57aacc\n--",
];

/// Why they are refused.
const DAMAGED_REFUSED: &str = "\
the file is damaged at byte 0, in line 1
line 1: the check at the end of the line is not that of the line
";

#[test]
fn a_damaged_file_is_refused(rt: HostRuntime) -> Result<(), AllocError> {
    let refusals = refusals_of(rt.alloc(), &DAMAGED)?;
    same(&rt, refusals.as_str(), DAMAGED_REFUSED);
    Ok(())
}
