//! Tests of `line_journal` over bytes, over files in memory, and over a real file whose disk stops at each call.

mod journals;
mod memory_tests;
mod reading_tests;
mod stopping_tests;
