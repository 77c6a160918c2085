//! What a start finds after a crash, as a theorem over a whole run.

ghost use Rattle.std.specs.Prelude.{◌≡◌, ◌⊎◌, ◌++◌, [], ◌∷◌, IfOk, IsTrue, OnOk};
ghost use Rattle.registry_store.specs.Schemas.{registration, registrations};

use crate::kept_schema::KeptSchema;
use crate::store_fault::StoreFault;
use crate::upstream_fault::UpstreamStoreFault;
use crate::upstream_opening::UpstreamStore;
use sqlite_disk::Crash;
use std::alloc::Global;

/// What came of a schema that was to be kept, and what a start found after a crash.
pub struct Restart<D: Crash> {
    pub answer: Result<(), StoreFault>,
    pub found: Result<UpstreamStore<D>, (UpstreamStoreFault, D)>,
}

impl<D: Crash> UpstreamStore<D> {
    ghost use Rattle.registry_store.specs.Store.{Keeps, disk_of};

    /// Keeps a schema; then the machine crashes, and the store is opened again. Over a `Fuse` the machine stops before
    /// any call of the disk that the fuse names. The start finds each schema that was kept before, with its id, and
    /// this one where it was kept; and else at most this one more.
    pub fn keep_and_crash(self, alloc: Global, url: &str, schema: &KeptSchema) -> Restart<D>
        requires { Keeps D.Disk.seen D.Disk.may_leave D.Disk.is_clean self.store
            (registrations url.now self.schemas.items) }
        ensures kept { OnOk result.answer (IfOk result.found (λ r. IsTrue (D.Disk.is_clean (disk_of r.store))
            → registrations url.now r.schemas.items
            ≡ registrations url.now self.schemas.items ++ registration url.now schema.now ∷ [])) }
        ensures crash { IfOk result.found (λ r. IsTrue (D.Disk.is_clean (disk_of r.store))
            → (registrations url.now r.schemas.items ≡ registrations url.now self.schemas.items)
            ⊎ (registrations url.now r.schemas.items
            ≡ registrations url.now self.schemas.items ++ registration url.now schema.now ∷ [])) }
    {
        let mut store = self.store;
        let answer = store.keep_registration(schema.id, url, schema.text.as_str());
        let mut disk = store.into_disk();
        disk.crash();
        let found = UpstreamStore::open(alloc, disk, url);
        Restart { answer, found }
    }
}
