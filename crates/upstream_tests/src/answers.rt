//! Tests of `upstream_answers`: the questions, the answers, whole, cut and at the limits, and what contents say.

mod contents;
mod devices;
mod large;
mod questions;
mod receiving;
