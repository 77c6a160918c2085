//! Requests that come in parts of any size, one after another, over a connection that stays.

mod cuts;
mod devices;
mod refusals;
