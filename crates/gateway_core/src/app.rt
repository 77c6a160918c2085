//! What requests are answered with.

use crate::transcode::Transcode;
use gateway_requests::Routes;
use schema_registry::SharedRegistry;
use std::alloc::Global;

/// What requests are answered with: the registry, what transcodes between its schemas, the routes, and the allocator.
#[derive(Drop)]
pub struct App<'a, T: Transcode> {
    pub alloc: Global,
    pub registry: &'a SharedRegistry,
    pub transcoder: &'a T,
    pub routes: &'a Routes,
}
