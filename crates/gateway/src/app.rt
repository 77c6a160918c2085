//! What requests are answered with.

ghost use Rattle.std.specs.Prelude.{◌≡◌, IfOk};

use gateway_requests::Routes;
use program_cache::ProgramCache;
use schema_registry::SharedRegistry;
use session_pool::SessionPool;
use std::alloc::{AllocError, Global};

/// What requests are answered with: a registry, a cache of the programs of its schemas, and a pool of sessions of
/// these programs.
#[derive(Drop)]
pub struct App<'a, 'p> {
    pub registry: &'a SharedRegistry,
    pub cache: &'a ProgramCache<'p>,
    pub pool: &'a SessionPool<'p>,
    pub(crate) alloc: Global,
    pub(crate) routes: Routes,
    ghost of_registry: { cache.now ≡ registry.now },
    ghost of_cache: { pool.now.cache.now ≡ cache.now },
}

impl<'a, 'p> App<'a, 'p> {
    /// Returns an app of a registry, a cache over it and a pool over that. The error is that there was no memory for
    /// the routes.
    pub fn new(
        alloc: Global,
        registry: &'a SharedRegistry,
        cache: &'a ProgramCache<'p>,
        pool: &'a SessionPool<'p>,
    ) -> Result<App<'a, 'p>, AllocError>
        requires cache { cache.now ≡ registry.now }
        requires pool { pool.now.cache.now ≡ cache.now }
        ensures registry { IfOk result (λ app. app.registry.now ≡ registry.now) }
        ensures cache { IfOk result (λ app. app.cache.now ≡ cache.now) }
        ensures pool { IfOk result (λ app. app.pool.now ≡ pool.now) }
    {
        let routes = Routes::new(alloc)?;
        Ok(App {
            registry,
            cache,
            pool,
            alloc,
            routes,
        })
    }
}
