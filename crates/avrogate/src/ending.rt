//! How the program ends.

ghost use Rattle.std.specs.Prelude.{◌≡◌, ◌≢◌, IfErr, IfOk};
ghost use Rattle.spec_lines.specs.declared.status.Status.TheVariants.{BadTraffic, NoMemory};

use commands::{RunError, Status};
use std::fmt::Display;

/// Returns how the program ends after a run.
pub(crate) fn status_of(done: Result<Status, RunError>) -> Status
    ensures ended { IfOk done (λ status. result ≡ status) }
    ensures memory { done ≡ Err RunError.NoMemory → result ≡ NoMemory }
    ensures traffic { IfErr done (λ e. e ≢ RunError.NoMemory → result ≡ BadTraffic) }
{
    match done {
        Ok(status) => status,
        Err(RunError::Read) | Err(RunError::Write) => Status::BadTraffic,
        Err(RunError::NoMemory) => Status::NoMemory,
    }
}

/// Prints a line on standard output that says why nothing was done, and returns how the program ends.
pub(crate) fn told(rt: &impl Print, why: &impl Display) -> Status {
    let _ = println!(rt; "{why}");
    Status::BadTraffic
}
