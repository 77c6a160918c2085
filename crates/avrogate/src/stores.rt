//! The subcommands that read and make stores.

use crate::ending::{status_of, told};
use commands::Status;
use store_commands::{ExportFault, ImportFault, export, import};

/// Prints the commands of the store on standard input. Where that is damaged, the fault is printed, and is bad
/// traffic.
pub(crate) fn export_store(rt: &(impl Input + Print + AllocGlobal)) -> Status {
    let mut reader = rt.reader();
    let mut writer = std::io::writer(rt);
    match export(rt.alloc(), &mut reader, &mut writer) {
        Ok(()) => Status::Answered,
        Err(ExportFault::Traffic(error)) => status_of(Err(error)),
        Err(fault) => told(rt, &fault),
    }
}

/// Makes a store at a path, of the lines on standard input. What is refused is printed, and is bad traffic.
pub(crate) fn import_store(host: &HostRuntime, path: &str) -> Status {
    let mut reader = host.reader();
    let mut writer = std::io::writer(host);
    match import(host, host.alloc(), path, &mut reader, &mut writer) {
        Ok(()) => Status::Answered,
        Err(ImportFault::Traffic(error)) => status_of(Err(error)),
        Err(fault) => told(host, &fault),
    }
}
