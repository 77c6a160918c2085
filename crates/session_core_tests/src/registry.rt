//! Tests of `schema_registry`.

mod answers;
mod command_tests;
mod lines;
mod rows;
mod shared_tests;
