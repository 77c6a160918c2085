//! Tests of programs and their two forms, listings and images.

mod image_tests;
mod listing_tests;
mod program_tests;
mod rows;
