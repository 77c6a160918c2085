//! A store of an upstream registry's schemas that is opened.

ghost use Rattle.std.specs.Prelude.{◌≡◌, true, IsTrue, IfErr, IfOk};
ghost use Rattle.sqlite_disk.specs.Disk.{Only};
ghost use Rattle.registry_store.specs.Schemas.{registrations};

use crate::kept_schema::{KeptSchema, schemas_in};
use crate::store::CommandStore;
use crate::upstream_fault::UpstreamStoreFault;
use sqlite_disk::Disk;
use std::alloc::Global;

/// A store of an upstream registry's schemas, and the schemas that it has, in the order in which they were kept.
#[derive(Drop)]
pub struct UpstreamStore<D: Disk> {
    pub store: CommandStore<D>,
    pub schemas: Vec<KeptSchema>,
}

impl<D: Disk> UpstreamStore<D> {
    ghost use Rattle.registry_store.specs.Store.{HasCommands, Keeps, disk_of, is_open};
    ghost use Rattle.registry_store.specs.Schemas.{HasOpenCause};

    /// Opens a file that a crash may have left, which has the schemas of the upstream registry of this URL and nothing
    /// else. At `Err` the disk is given back.
    pub fn open(
        alloc: Global,
        disk: D,
        url: &str,
    ) -> Result<UpstreamStore<D>, (UpstreamStoreFault, D)>
        requires { IsTrue (D.is_usable disk) }
        ensures schemas { IfOk result (λ r. IsTrue (D.is_clean (disk_of r.store))
            → HasCommands (D.seen disk) (registrations url.now r.schemas.items)) }
        // After a restart, what is read is what is on the disk.
        ensures keeps { IfOk result (λ r. Only (D.seen disk) (D.may_leave disk)
            → Keeps D.seen D.may_leave D.is_clean r.store (registrations url.now r.schemas.items)) }
        ensures open { IfOk result (λ r. is_open r.store ≡ true) }
        ensures why { IfErr result (λ e. HasOpenCause D.seen D.is_clean D.is_mixing D.faults url.now disk e.1 e.0) }
        ensures clean { IfOk result (λ r. IsTrue (D.is_clean (disk_of r.store)) → IsTrue (D.is_clean disk)) }
    {
        let (store, commands) = match CommandStore::open(alloc, disk) {
            Ok(found) => found,
            Err((fault, disk)) => return Err((UpstreamStoreFault::File(fault), disk)),
        };
        match schemas_in(alloc, commands, url) {
            Ok(schemas) => Ok(UpstreamStore { store, schemas }),
            Err(fault) => Err((fault, store.into_disk())),
        }
    }
}
