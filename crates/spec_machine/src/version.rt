//! The versions of images.

ghost use Rattle.std.specs.Prelude.{◌≡◌};
ghost use Rattle.spec_machine.specs.ImageSpelling.{most_instrs};

use crate::limits::{MOST_INSTRS, MOST_INSTRS_OF_ONE};

/// The versions of images.
#[derive(Clone, Copy, Debug, PartialEq, Eq)]
pub enum Version {
    /// Addresses have 2 bytes.
    One,
    /// Addresses have 4 bytes.
    Two,
}

impl Version {
    /// Returns how many instructions an image of this version may have.
    pub fn most_instrs(self) -> usize
        ensures { result ≡ most_instrs self }
    {
        match self {
            Version::One => MOST_INSTRS_OF_ONE,
            Version::Two => MOST_INSTRS,
        }
    }
}
