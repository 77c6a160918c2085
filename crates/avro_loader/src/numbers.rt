//! The numbers in an image.

ghost use Rattle.std.specs.Prelude.{◌≡◌, ◌++◌, OnErr, OnOk};
ghost use Rattle.std.specs.Int.{w16, w32};
ghost use Rattle.spec_machine.specs.ImageSpelling.{long, short};
ghost use Rattle.avro_loader.specs.ImageReading.{Tells, address_at, number_at, operand_at};

use crate::image_fault::ImageFault;
use crate::version::{Format, Version};
use isa::Shape;
use std::alloc::AllocError;

/// Returns the big-endian number of the first 2 bytes, and the bytes after it; `Truncated` where there are fewer.
pub fn u16_at(bytes: &[u8]) -> Result<(u32, &[u8]), ImageFault>
    ensures { Tells (λ x. (x.0, x.1.now)) result (number_at w16 bytes.now) }
{
    if bytes.len() < 2 {
        return Err(ImageFault::Truncated);
    }
    let (front, rest) = bytes.split_at(2);
    let number = u16::from_be_bytes([front[0], front[1]]);
    Ok((number as u32, rest))
}

/// Returns the big-endian number of the first 4 bytes, and the bytes after it; `Truncated` where there are fewer.
pub fn u32_at(bytes: &[u8]) -> Result<(u32, &[u8]), ImageFault>
    ensures { Tells (λ x. (x.0, x.1.now)) result (number_at w32 bytes.now) }
{
    if bytes.len() < 4 {
        return Err(ImageFault::Truncated);
    }
    let (front, rest) = bytes.split_at(4);
    let number = u32::from_be_bytes([front[0], front[1], front[2], front[3]]);
    Ok((number, rest))
}

/// Returns the address at the front of bytes, in 2 or 4 bytes by the version, and the bytes after it.
pub fn address_of(format: Format, bytes: &[u8]) -> Result<(u32, &[u8]), ImageFault>
    ensures { Tells (λ x. (x.0, x.1.now)) result (address_at format bytes.now) }
{
    match format.version {
        Version::One => u16_at(bytes),
        Version::Two => u32_at(bytes),
    }
}

/// Returns the operand of an operation, or 0 where it has none, and the bytes after it.
pub fn operand_of(format: Format, shape: Shape, bytes: &[u8]) -> Result<(u32, &[u8]), ImageFault>
    ensures { Tells (λ x. (x.0, x.1.now)) result (operand_at format shape bytes.now) }
{
    match shape {
        Shape::Nothing => Ok((0, bytes)),
        Shape::Short => u16_at(bytes),
        Shape::Long => u32_at(bytes),
        Shape::Address => address_of(format, bytes),
    }
}

/// Appends the lowest 2 bytes of an integer, big-endian. An `Err` leaves the vector as it was.
pub fn put_short(out: &mut Vec<u8>, number: usize) -> Result<(), AllocError>
    ensures put { OnOk result (out.new.items ≡ out.old.items ++ short number) }
    ensures refused { OnErr result (out.new.items ≡ out.old.items) }
{
    let [_, _, _, _, _, _, high, low] = number.to_be_bytes();
    out.extend_from_slice(&[high, low])
}

/// Appends the lowest 4 bytes of an integer, big-endian. An `Err` leaves the vector as it was.
pub fn put_long(out: &mut Vec<u8>, number: usize) -> Result<(), AllocError>
    ensures put { OnOk result (out.new.items ≡ out.old.items ++ long number) }
    ensures refused { OnErr result (out.new.items ≡ out.old.items) }
{
    let [_, _, _, _, a, b, c, d] = number.to_be_bytes();
    out.extend_from_slice(&[a, b, c, d])
}
