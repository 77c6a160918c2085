//! Tests of `upstream_fetching`: the rules of the queue, the threads that wait for an id, and fetches from an upstream
//! registry that answers from a list.

mod fetches;
mod queues;
mod waits;
