//! The versions of images, and what an image may have in each.

ghost use Rattle.std.specs.Prelude.{◌≡◌};
ghost use Rattle.avro_loader.specs.ImageReading.{place};

pub use spec_machine::Version;

/// An image that is read: its version, and how many bytes it has.
#[derive(Clone, Copy, Debug)]
pub struct Format {
    pub version: Version,
    pub len: usize,
}

impl Format {
    /// Returns the offset in the image of the first of the bytes that are left.
    pub fn place(self, left: &[u8]) -> usize
        ensures { result ≡ place self left.now }
    {
        self.len.saturating_sub(left.len())
    }
}
