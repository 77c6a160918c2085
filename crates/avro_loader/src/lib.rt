//! Programs.
//!
//! The images of programs: their bytes in a file, and the words that these are made of.
#![tactic(auto)]

mod fault;
mod head;
mod image_fault;
mod laws;
mod limits;
mod loading;
mod numbers;
mod places;
mod reading;
mod saving;
mod thing;
mod version;

pub use fault::LoadError;
pub use head::{ended, open};
pub use image_fault::ImageFault;
pub use laws::image_is_of_one_program;
pub use limits::{MOST_INSTRS_OF_ONE, limits_are_these};
pub use loading::{load, migrate};
pub use numbers::{address_of, operand_of, put_long, put_short, u16_at, u32_at};
pub use saving::save;
pub use version::{Format, Version};
