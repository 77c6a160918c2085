//! Why the schema of an id was not held when it was last asked for.

ghost use Rattle.std.specs.Prelude.{◌≡◌, ◌==◌, IfSome};
ghost use Rattle.upstream_schemas.specs.Asking.{IsWhyUnheld};

use crate::limits::FAILURE_TIME;
use gateway_requests::Fault;
use std::marker::{Model, PhantomData};
use std::time::{Duration, Instant};
use upstream_schemas::Upstream;

/// Why the schema of an id was not held when it was last asked for. Callers see it as the id and the reason.
#[derive(Drop)]
pub(crate) struct Failure<U: Upstream> {
    id: u32,
    fault: Fault,
    /// When it was found out.
    moment: Instant,
    of: PhantomData<U>,
}

impl<U: Upstream> Model for Failure<U> {
    ghost use Rattle.std.specs.Prelude.{ℕ};
    ghost use Rattle.spec_service.specs.declared.fault.Fault.{Fault};
    ghost use Rattle.upstream_schemas.specs.Asking.{IsWhyUnheld};

    ghost Value = { ℕ × Fault };

    ghost view = { λ f. (f.id, f.fault) };

    ghost invariant = { λ f. IsWhyUnheld U.heard U.kept f.id f.fault };
}

impl<U: Upstream> Failure<U> {
    /// Returns the failure of an id, found out at a moment.
    pub(crate) fn new(id: u32, fault: Fault, moment: Instant) -> Failure<U>
        requires { IsWhyUnheld U.heard U.kept id fault }
        ensures { (result.0 ≡ id) × (result.1 ≡ fault) }
    {
        Failure {
            id,
            fault,
            moment,
            of: PhantomData,
        }
    }

    /// Returns whether it is the failure of an id.
    pub(crate) fn is_of(&self, id: u32) -> bool
        ensures { result ≡ (self.now.0 == id) }
    {
        self.id == id
    }

    /// Returns why the schema of an id is not held. `None` where the failure is that of another id, or was found out
    /// longer ago than it is remembered for.
    pub(crate) fn fault_of(&self, id: u32, now: Instant) -> Option<Fault>
        ensures { IfSome result (IsWhyUnheld U.heard U.kept id) }
    {
        let age = now.saturating_duration_since(self.moment);
        if self.id == id && age < Duration::from_millis(FAILURE_TIME) {
            return Some(self.fault);
        }
        None
    }
}
