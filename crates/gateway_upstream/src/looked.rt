//! The schemas that were looked up for a request.

ghost use Rattle.std.specs.Prelude.{◌≡◌, [], IfErr, IfOk};
ghost use Rattle.std.specs.Result.{result_err};
ghost use Rattle.gateway_upstream.specs.LookedUp.{LookUp, with_look};
ghost use Rattle.spec_registry.specs.Receipt.{IsReceiptOf};
ghost use Rattle.upstream_schemas.specs.Asking.{IsWhyUnheld};
ghost use Rattle.spec_service.specs.UpstreamNaming.{IsNamingOf};

use gateway::{NamedSchema, Schemas};
use gateway_requests::{Fault, UpstreamFault};
use schema_registry::Receipt;
use std::marker::Model;
use upstream_schemas::{FoundSchema, Named, Upstream, UpstreamSchemas};

/// What came of a look-up: the schema of an id, or why there is none.
#[derive(Drop)]
struct Look<U: Upstream> {
    id: u32,
    found: Result<FoundSchema<U>, Fault>,
}

/// The schemas that were looked up for a request, of two ids at most. Callers see them as the names of the shared
/// cells, and what each look-up came to.
#[derive(Drop)]
pub struct Looked<'s, 'r, U: Upstream> {
    schemas: &'s UpstreamSchemas<'r, U>,
    first: Option<Look<U>>,
    second: Option<Look<U>>,
}

impl<'s, 'r, U: Upstream> Model for Looked<'s, 'r, U> {
    ghost use Rattle.std.specs.Prelude.{◌≡◌, None, IfErr, IfOk, IfSome, option_map};
    ghost use Rattle.std.specs.Result.{result_err};
    ghost use Rattle.spec_registry.specs.Receipt.{IsReceiptOf};
    ghost use Rattle.gateway_upstream.specs.LookedUp.{LookedUp, LookUp, looks_of};
    ghost use Rattle.upstream_schemas.specs.Asking.{IsWhyUnheld};
    ghost use Rattle.spec_service.specs.UpstreamNaming.{IsNamingOf};

    ghost Value = { LookedUp };

    ghost view = { λ l. record {
      names = l.schemas.now;
      looks = looks_of (option_map (λ k. record { id = k.id; fault = result_err k.found }) l.first)
          (option_map (λ k. record { id = k.id; fault = result_err k.found }) l.second);
    } };

    ghost invariant = { λ l. IfSome l.first (λ k. IfOk k.found (λ f. IsReceiptOf l.schemas.now.registry f.receipt
        × IsNamingOf U.heard U.kept l.schemas.now k.id f.receipt f.named)
        × IfErr k.found (IsWhyUnheld U.heard U.kept k.id))
        × IfSome l.second (λ k. IfOk k.found (λ f. IsReceiptOf l.schemas.now.registry f.receipt
        × IsNamingOf U.heard U.kept l.schemas.now k.id f.receipt f.named)
        × IfErr k.found (IsWhyUnheld U.heard U.kept k.id))
        × (l.first ≡ None → l.second ≡ None) };
}

/// Returns a schema as one that an id names.
fn named<U: Upstream>(found: FoundSchema<U>) -> NamedSchema<Receipt, Named<U>>
    ensures receipt { result.receipt ≡ found.receipt }
    ensures seen { result.seen ≡ found.named }
{
    NamedSchema {
        receipt: found.receipt,
        seen: found.named,
    }
}

/// Returns what came of a look-up, once more.
fn again<U: Upstream>(look: &mut Look<U>) -> Result<FoundSchema<U>, Fault>
    ensures same { look.new ≡ look.old }
    ensures found { result ≡ look.old.found }
{
    match &mut look.found {
        Ok(found) => Ok(found.again()),
        Err(fault) => Err(*fault),
    }
}

impl<'s, 'r, U: Upstream> Looked<'s, 'r, U> {
    /// Returns no look-up yet, of what threads share.
    pub fn new(schemas: &'s UpstreamSchemas<'r, U>) -> Looked<'s, 'r, U>
        ensures { (result.names ≡ schemas.now) × (result.looks ≡ []) }
    {
        Looked {
            schemas,
            first: None,
            second: None,
        }
    }

    /// Adds what came of a look-up. A third one takes the place of the second.
    pub fn add(&mut self, id: u32, found: Result<FoundSchema<U>, Fault>)
        requires found { IfOk found (λ f. IsReceiptOf self.old.names.registry f.receipt
            × IsNamingOf U.heard U.kept self.old.names id f.receipt f.named) }
        requires why { IfErr found (IsWhyUnheld U.heard U.kept id) }
        ensures names { self.new.names ≡ self.old.names }
        ensures looks { self.new.looks ≡ with_look self.old.looks (record { id = id; fault = result_err found }) }
    {
        let look = Some(Look { id, found });
        if self.first.is_none() {
            self.first = look;
        } else {
            self.second = look;
        }
    }
}

impl<'s, 'r, U: Upstream> Schemas for Looked<'s, 'r, U> {
    ghost use Rattle.std.specs.Prelude.{◌≡◌};
    ghost use Rattle.gateway_upstream.specs.LookedUp.{IsWhyNotShown};
    ghost use Rattle.spec_service.specs.UpstreamNaming.{IsNamingOf};

    type Seen = Named<U>;

    ghost cells = { λ l. l.names.registry };

    ghost names = { λ l id receipt seen. IsNamingOf U.heard U.kept l.names id receipt seen };

    ghost refuses = { λ l id fault. IsWhyNotShown U.heard U.kept l.looks id fault };

    fn schema_of(&mut self, id: u32) -> Result<NamedSchema<Receipt, Named<U>>, Fault> {
        if let Some(look) = &mut self.first
            && look.id == id
        {
            return Ok(named(again(look)?));
        }
        if let Some(look) = &mut self.second
            && look.id == id
        {
            return Ok(named(again(look)?));
        }
        Err(Fault::Upstream(UpstreamFault::Busy))
    }
}
