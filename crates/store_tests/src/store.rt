//! Tests of `registry_store`: lines as a person reads them, and stores in a real file whose disk stops.

mod changed_tests;
mod file_tests;
mod line_tests;
mod stopping_tests;
mod stores;
