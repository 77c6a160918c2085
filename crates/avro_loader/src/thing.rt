//! What a section of an image holds: constants, entries, addresses, misses, instructions.

ghost use Rattle.std.specs.Prelude.{◌≡◌, ◌++◌, ℕ, List, OnOk, Some, None};
ghost use Rattle.avro_loader.specs.declared.version.Format.{Format};
ghost use Rattle.spec_machine.specs.declared.version.Version.TheVariants.{Two};
ghost use Rattle.spec_machine.specs.ImageSpelling.{address};
ghost use Rattle.avro_loader.specs.ImageReading.{Read, Tells, address_at};
ghost use Rattle.spec_machine.specs.Image.{entry, miss, instr};
ghost use Rattle.avro_loader.specs.Reading.{entry_at, miss_at, instr_at, kind_at};

use crate::{Format, ImageFault, address_of, operand_of, put_long, put_short, u16_at};
use avro_bytes::{Mismatch, MismatchKind};
use isa::{Entry, Instr, Shape, operation_at};
use std::alloc::AllocError;

/// What a section holds a number of.
pub(crate) trait Thing: Copy {
    /// The one at the front of bytes, and the bytes after it.
    ghost thing_at: { Format → List ℕ → Read Self };

    /// Its bytes in version 2.
    ghost spelled: { Self → List ℕ };

    fn read<'a>(format: Format, bytes: &'a [u8]) -> Result<(Self, &'a [u8]), ImageFault>
        ensures { Tells (λ x. (x.0, x.1.now)) result (thing_at format bytes.now) };

    fn put(self, out: &mut Vec<u8>) -> Result<(), AllocError>
        ensures { OnOk result (out.new.items ≡ out.old.items ++ spelled self) };
}

impl Thing for u32 {
    ghost thing_at = { address_at };

    ghost spelled = { address Two };

    fn read<'a>(format: Format, bytes: &'a [u8]) -> Result<(u32, &'a [u8]), ImageFault> {
        address_of(format, bytes)
    }

    fn put(self, out: &mut Vec<u8>) -> Result<(), AllocError> {
        put_long(out, self as usize)
    }
}

impl Thing for Entry {
    ghost thing_at = { entry_at };

    ghost spelled = { entry };

    #[tactic(auto, unfolding(crate::specs::Reading::entry_at))]
    fn read<'a>(format: Format, bytes: &'a [u8]) -> Result<(Entry, &'a [u8]), ImageFault> {
        match bytes {
            [] => Err(ImageFault::Truncated),
            [0, rest @ ..] => {
                let (position, rest) = u16_at(rest)?;
                Ok((Entry::Position(position), rest))
            }
            [1, rest @ ..] => {
                let (miss, rest) = u16_at(rest)?;
                Ok((Entry::Miss(miss), rest))
            }
            [_, ..] => Err(ImageFault::BadByte(format.place(bytes))),
        }
    }

    fn put(self, out: &mut Vec<u8>) -> Result<(), AllocError> {
        match self {
            Entry::Position(position) => {
                out.push(0)?;
                put_short(out, position as usize)
            }
            Entry::Miss(miss) => {
                out.push(1)?;
                put_short(out, miss as usize)
            }
        }
    }
}

/// Returns the kind of a miss by its code; `None` where no kind has it.
fn kind_of(byte: u8) -> Option<MismatchKind>
    ensures { result ≡ kind_at byte }
{
    match byte {
        1 => Some(MismatchKind::NoMatch),
        2 => Some(MismatchKind::NoBranch),
        3 => Some(MismatchKind::NoSymbol),
        4 => Some(MismatchKind::NoDefault),
        5 => Some(MismatchKind::BytesNotText),
        _ => None,
    }
}

impl Thing for Mismatch {
    ghost thing_at = { miss_at };

    ghost spelled = { miss };

    #[tactic(auto, unfolding(crate::specs::Reading::miss_at))]
    fn read<'a>(format: Format, bytes: &'a [u8]) -> Result<(Mismatch, &'a [u8]), ImageFault> {
        let [first, rest @ ..] = bytes else {
            return Err(ImageFault::Truncated);
        };
        let Some(kind) = kind_of(*first) else {
            return Err(ImageFault::BadByte(format.place(bytes)));
        };
        let (writer_node, rest) = u16_at(rest)?;
        let (reader_node, rest) = u16_at(rest)?;
        let miss = Mismatch {
            kind,
            writer_node: writer_node as usize,
            reader_node: reader_node as usize,
        };
        Ok((miss, rest))
    }

    fn put(self, out: &mut Vec<u8>) -> Result<(), AllocError> {
        out.push(self.kind.code())?;
        put_short(out, self.writer_node)?;
        put_short(out, self.reader_node)
    }
}

impl Thing for Instr {
    ghost thing_at = { instr_at };

    ghost spelled = { instr Two };

    #[tactic(auto, unfolding(crate::specs::Reading::instr_at))]
    fn read<'a>(format: Format, bytes: &'a [u8]) -> Result<(Instr, &'a [u8]), ImageFault> {
        let [first, rest @ ..] = bytes else {
            return Err(ImageFault::Truncated);
        };
        let Some(operation) = operation_at(*first) else {
            return Err(ImageFault::BadByte(format.place(bytes)));
        };
        let (operand, rest) = operand_of(format, operation.shape(), rest)?;
        Ok((operation.with(operand), rest))
    }

    fn put(self, out: &mut Vec<u8>) -> Result<(), AllocError> {
        let operation = self.operation();
        out.push(operation.code())?;
        match operation.shape() {
            Shape::Nothing => Ok(()),
            Shape::Short => put_short(out, self.operand() as usize),
            Shape::Long | Shape::Address => put_long(out, self.operand() as usize),
        }
    }
}
