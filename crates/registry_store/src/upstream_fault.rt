//! Why a file is not the store of an upstream registry's schemas.

use crate::store_fault::OpenFault;
use std::alloc::AllocFailed;
use thiserror::Error;

/// Why a file is not the store of an upstream registry's schemas.
#[derive(Clone, Copy, Debug, Error)]
pub enum UpstreamStoreFault {
    #[error("out of memory")]
    NoMemory,
    /// The file was not read, or is not one of commands.
    #[error("{0}")]
    File(OpenFault),
    /// The line of this number, from 1, has no schema of this upstream registry.
    #[error("line {number} has no schema of this upstream registry")]
    OtherRegistry { number: usize },
}

impl<T: Drop> From<AllocFailed<T>> for UpstreamStoreFault {
    ghost use Rattle.std.specs.Prelude.{◌≡◌};
    ghost use Rattle.registry_store.specs.declared.upstream_fault.UpstreamStoreFault.TheVariants.{NoMemory};

    ghost from_gives = { λ _ fault. fault ≡ NoMemory };

    fn from(_error: AllocFailed<T>) -> UpstreamStoreFault {
        UpstreamStoreFault::NoMemory
    }
}
