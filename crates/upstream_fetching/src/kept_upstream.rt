//! An upstream registry whose schemas are kept.

ghost use Rattle.std.specs.Prelude.{◌≡◌, ◌++◌, [], ◌∷◌, List, true, OnErr, OnOk};
ghost use Rattle.std.specs.Option.{option_map_or};
ghost use Rattle.schema_registry.specs.Keeping.{KeepsIfSome, KeptCommand, KeptRegistration};

use registry_store::KeptSchema;
use schema_registry::{KeepFault, Keeper};
use std::marker::PhantomData;
use std::sync::{Mutex, Wait};
use upstream_schemas::{ExchangeFault, Upstream};

/// The schemas that the store of an upstream registry had when this process opened it. What its lines said then is the
/// world's record, which contracts alone can name.
pub trait Beginning {
    ghost use Rattle.std.specs.Prelude.{ℕ, All, List, string_bytes};

    // A line of the store said this text of a schema for this id.
    ghost said: { ℕ → List ℕ → Type 0 };

    /// Returns the schemas in the order of their lines.
    fn schemas(&self) -> &[KeptSchema]
        ensures { All (λ s. said s.id (string_bytes s.text)) result.now };
}

/// An upstream registry, and the store that keeps its schemas under its URL, where there is one. `B` is what the store
/// had at first.
#[derive(Drop)]
pub struct KeptUpstream<'a, R: Wait, U: Upstream, K: Keeper, B: Beginning> {
    rt: &'a R,
    upstream: &'a U,
    url: &'a str,
    store: Mutex<Option<K>>,
    of: PhantomData<B>,
}

impl<'a, R: Wait, U: Upstream, K: Keeper, B: Beginning> KeptUpstream<'a, R, U, K, B> {
    /// Returns an upstream registry of this URL, which keeps in a store, or nowhere.
    pub fn new(
        rt: &'a R,
        upstream: &'a U,
        url: &'a str,
        store: Option<K>,
    ) -> KeptUpstream<'a, R, U, K, B> {
        KeptUpstream {
            rt,
            upstream,
            url,
            store: Mutex::new(store),
            of: PhantomData,
        }
    }
}

/// Keeps a schema for an id of the upstream registry of a URL, where there is a store. At `Err` the store has what it
/// had, or takes no more.
fn keep_in<K: Keeper>(
    store: &mut Option<K>,
    url: &str,
    id: u32,
    text: &str,
) -> Result<(), KeepFault>
    ensures kept { OnOk result ((ks : List KeptCommand) → KeepsIfSome K.keeps store.old ks
        → KeepsIfSome K.keeps store.new (ks ++ KeptRegistration id url.now text.now ∷ [])) }
    ensures refused { OnErr result (option_map_or K.is_open store.new true ≡ true → (ks : List KeptCommand)
        → KeepsIfSome K.keeps store.old ks → KeepsIfSome K.keeps store.new ks) }
{
    store.keep_registration(id, url, text)
}

impl<'a, R: Wait, U: Upstream, K: Keeper, B: Beginning> Upstream for KeptUpstream<'a, R, U, K, B> {
    ghost use Rattle.spec_service.specs.UpstreamNaming.{IsTextOf};

    ghost heard = { U.heard };

    // It was answered for the id to this process, or the store's lines said it when this process opened it.
    ghost kept = { IsTextOf U.heard B.said };

    fn exchange(&self, question: &str) -> Result<Vec<u8>, ExchangeFault> {
        self.upstream.exchange(question)
    }

    fn keep(&self, id: u32, text: &str) -> Result<(), KeepFault> {
        let mut store = self.store.lock(self.rt);
        keep_in(&mut *store, self.url, id, text)
    }
}
