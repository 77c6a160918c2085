//! The head of an image: its magic number and its version.

ghost use Rattle.std.specs.Prelude.{◌≡◌};
ghost use Rattle.avro_loader.specs.ImageReading.{Tells, ended, opened, version_at};

use crate::image_fault::ImageFault;
use crate::numbers::u32_at;
use crate::version::{Format, Version};

/// The number that every image begins with: the letters AVRP.
pub const MAGIC: u32 = 0x4156_5250;

/// Returns the version for the first byte, and the bytes after it.
fn version_of(bytes: &[u8]) -> Result<(Version, &[u8]), ImageFault>
    ensures { Tells (λ x. (x.0, x.1.now)) result (version_at bytes.now) }
{
    match bytes {
        [] => Err(ImageFault::Truncated),
        [1, rest @ ..] => Ok((Version::One, rest)),
        [2, rest @ ..] => Ok((Version::Two, rest)),
        [_, ..] => Err(ImageFault::BadVersion),
    }
}

/// Reads the head of an image: returns its version, and the bytes after it; else the first fault.
#[tactic(auto, unfolding(crate::specs::ImageReading::opened))]
pub fn open(bytes: &[u8]) -> Result<(Version, &[u8]), ImageFault>
    ensures { Tells (λ x. (x.0, x.1.now)) result (opened bytes.now) }
{
    let (magic, rest) = u32_at(bytes)?;
    if magic != MAGIC {
        return Err(ImageFault::BadMagic);
    }
    version_of(rest)
}

/// Checks that no bytes are left after an image; `Trailing` with their offset where some are.
pub fn ended(format: Format, left: &[u8]) -> Result<(), ImageFault>
    ensures { result ≡ ended format left.now }
{
    if !left.is_empty() {
        return Err(ImageFault::Trailing(format.place(left)));
    }
    Ok(())
}
