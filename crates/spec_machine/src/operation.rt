//! What an instruction does whatever its operand: its code, its name, the operand that it has.

ghost use Rattle.std.specs.Prelude.{◌≡◌};
ghost use Rattle.spec_machine.specs.Operation.{code_of, instr_of, name_of, operand_of, operation_of, shape_of};

use crate::instr::Instr;

/// What an instruction does, whatever its operand.
#[derive(Clone, Copy, Debug, PartialEq, Eq)]
pub enum Operation {
    Bool,
    Int,
    Long,
    Bytes,
    Text,
    BytesText,
    Fixed,
    Enum,
    SkipBool,
    SkipInt,
    SkipLong,
    SkipBytes,
    SkipText,
    SkipFixed,
    SkipEnum,
    Put,
    Record,
    Slot,
    EndRecord,
    Enter,
    Leave,
    Blocks,
    Next,
    SkipBlocks,
    SkipNext,
    Branch,
    Miss,
    Call,
    Return,
    Jump,
    Halt,
}

/// Which operand an operation has.
#[derive(Clone, Copy, Debug, PartialEq, Eq)]
pub enum Shape {
    Nothing,
    /// The index of a constant, a table, a miss or a slot, or how many slots a record has.
    Short,
    /// A number of bytes or of symbols.
    Long,
    /// An address of the code.
    Address,
}

/// The operations in the order of their codes, from 1.
pub const OPERATIONS: [Operation; 31] = [
    Operation::Bool,
    Operation::Int,
    Operation::Long,
    Operation::Bytes,
    Operation::Text,
    Operation::BytesText,
    Operation::Fixed,
    Operation::Enum,
    Operation::SkipBool,
    Operation::SkipInt,
    Operation::SkipLong,
    Operation::SkipBytes,
    Operation::SkipText,
    Operation::SkipFixed,
    Operation::SkipEnum,
    Operation::Put,
    Operation::Record,
    Operation::Slot,
    Operation::EndRecord,
    Operation::Enter,
    Operation::Leave,
    Operation::Blocks,
    Operation::Next,
    Operation::SkipBlocks,
    Operation::SkipNext,
    Operation::Branch,
    Operation::Miss,
    Operation::Call,
    Operation::Return,
    Operation::Jump,
    Operation::Halt,
];

impl Operation {
    /// Returns its code.
    pub fn code(self) -> u8
        ensures { result ≡ code_of self }
    {
        match self {
            Operation::Bool => 0x01,
            Operation::Int => 0x02,
            Operation::Long => 0x03,
            Operation::Bytes => 0x04,
            Operation::Text => 0x05,
            Operation::BytesText => 0x06,
            Operation::Fixed => 0x07,
            Operation::Enum => 0x08,
            Operation::SkipBool => 0x09,
            Operation::SkipInt => 0x0a,
            Operation::SkipLong => 0x0b,
            Operation::SkipBytes => 0x0c,
            Operation::SkipText => 0x0d,
            Operation::SkipFixed => 0x0e,
            Operation::SkipEnum => 0x0f,
            Operation::Put => 0x10,
            Operation::Record => 0x11,
            Operation::Slot => 0x12,
            Operation::EndRecord => 0x13,
            Operation::Enter => 0x14,
            Operation::Leave => 0x15,
            Operation::Blocks => 0x16,
            Operation::Next => 0x17,
            Operation::SkipBlocks => 0x18,
            Operation::SkipNext => 0x19,
            Operation::Branch => 0x1a,
            Operation::Miss => 0x1b,
            Operation::Call => 0x1c,
            Operation::Return => 0x1d,
            Operation::Jump => 0x1e,
            Operation::Halt => 0x1f,
        }
    }

    /// Returns its name, as listings write it.
    pub fn name(self) -> &'static str
        ensures { result.now ≡ name_of self }
    {
        match self {
            Operation::Bool => "BOOL",
            Operation::Int => "INT",
            Operation::Long => "LONG",
            Operation::Bytes => "BYTES",
            Operation::Text => "TEXT",
            Operation::BytesText => "BYTESTEXT",
            Operation::Fixed => "FIXED",
            Operation::Enum => "ENUM",
            Operation::SkipBool => "SBOOL",
            Operation::SkipInt => "SINT",
            Operation::SkipLong => "SLONG",
            Operation::SkipBytes => "SBYTES",
            Operation::SkipText => "STEXT",
            Operation::SkipFixed => "SFIXED",
            Operation::SkipEnum => "SENUM",
            Operation::Put => "PUT",
            Operation::Record => "RECORD",
            Operation::Slot => "SLOT",
            Operation::EndRecord => "ENDREC",
            Operation::Enter => "ENTER",
            Operation::Leave => "LEAVE",
            Operation::Blocks => "BLOCKS",
            Operation::Next => "NEXT",
            Operation::SkipBlocks => "SBLOCKS",
            Operation::SkipNext => "SNEXT",
            Operation::Branch => "BRANCH",
            Operation::Miss => "MISS",
            Operation::Call => "CALL",
            Operation::Return => "RET",
            Operation::Jump => "JUMP",
            Operation::Halt => "HALT",
        }
    }

    /// Returns which operand it has.
    pub fn shape(self) -> Shape
        ensures { result ≡ shape_of self }
    {
        match self {
            Operation::BytesText
            | Operation::Enum
            | Operation::Put
            | Operation::Record
            | Operation::Slot
            | Operation::Branch
            | Operation::Miss => Shape::Short,
            Operation::Fixed | Operation::SkipFixed | Operation::SkipEnum => Shape::Long,
            Operation::Next | Operation::SkipNext | Operation::Call | Operation::Jump =>
                Shape::Address,
            _ => Shape::Nothing,
        }
    }

    /// Returns its instruction with an operand, which is ignored where the operation has none.
    pub fn with(self, operand: u32) -> Instr
        ensures { result ≡ instr_of self operand }
    {
        match self {
            Operation::Bool => Instr::Bool,
            Operation::Int => Instr::Int,
            Operation::Long => Instr::Long,
            Operation::Bytes => Instr::Bytes,
            Operation::Text => Instr::Text,
            Operation::BytesText => Instr::BytesText(operand),
            Operation::Fixed => Instr::Fixed(operand),
            Operation::Enum => Instr::Enum(operand),
            Operation::SkipBool => Instr::SkipBool,
            Operation::SkipInt => Instr::SkipInt,
            Operation::SkipLong => Instr::SkipLong,
            Operation::SkipBytes => Instr::SkipBytes,
            Operation::SkipText => Instr::SkipText,
            Operation::SkipFixed => Instr::SkipFixed(operand),
            Operation::SkipEnum => Instr::SkipEnum(operand),
            Operation::Put => Instr::Put(operand),
            Operation::Record => Instr::Record(operand),
            Operation::Slot => Instr::Slot(operand),
            Operation::EndRecord => Instr::EndRecord,
            Operation::Enter => Instr::Enter,
            Operation::Leave => Instr::Leave,
            Operation::Blocks => Instr::Blocks,
            Operation::Next => Instr::Next(operand),
            Operation::SkipBlocks => Instr::SkipBlocks,
            Operation::SkipNext => Instr::SkipNext(operand),
            Operation::Branch => Instr::Branch(operand),
            Operation::Miss => Instr::Miss(operand),
            Operation::Call => Instr::Call(operand),
            Operation::Return => Instr::Return,
            Operation::Jump => Instr::Jump(operand),
            Operation::Halt => Instr::Halt,
        }
    }
}

impl Instr {
    /// Returns its operation.
    pub fn operation(self) -> Operation
        ensures { result ≡ operation_of self }
    {
        match self {
            Instr::Bool => Operation::Bool,
            Instr::Int => Operation::Int,
            Instr::Long => Operation::Long,
            Instr::Bytes => Operation::Bytes,
            Instr::Text => Operation::Text,
            Instr::BytesText(_) => Operation::BytesText,
            Instr::Fixed(_) => Operation::Fixed,
            Instr::Enum(_) => Operation::Enum,
            Instr::SkipBool => Operation::SkipBool,
            Instr::SkipInt => Operation::SkipInt,
            Instr::SkipLong => Operation::SkipLong,
            Instr::SkipBytes => Operation::SkipBytes,
            Instr::SkipText => Operation::SkipText,
            Instr::SkipFixed(_) => Operation::SkipFixed,
            Instr::SkipEnum(_) => Operation::SkipEnum,
            Instr::Put(_) => Operation::Put,
            Instr::Record(_) => Operation::Record,
            Instr::Slot(_) => Operation::Slot,
            Instr::EndRecord => Operation::EndRecord,
            Instr::Enter => Operation::Enter,
            Instr::Leave => Operation::Leave,
            Instr::Blocks => Operation::Blocks,
            Instr::Next(_) => Operation::Next,
            Instr::SkipBlocks => Operation::SkipBlocks,
            Instr::SkipNext(_) => Operation::SkipNext,
            Instr::Branch(_) => Operation::Branch,
            Instr::Miss(_) => Operation::Miss,
            Instr::Call(_) => Operation::Call,
            Instr::Return => Operation::Return,
            Instr::Jump(_) => Operation::Jump,
            Instr::Halt => Operation::Halt,
        }
    }

    /// Returns its operand, or 0 where it has none.
    pub fn operand(self) -> u32
        ensures { result ≡ operand_of self }
    {
        match self {
            Instr::BytesText(operand)
            | Instr::Fixed(operand)
            | Instr::Enum(operand)
            | Instr::SkipFixed(operand)
            | Instr::SkipEnum(operand)
            | Instr::Put(operand)
            | Instr::Record(operand)
            | Instr::Slot(operand)
            | Instr::Next(operand)
            | Instr::SkipNext(operand)
            | Instr::Branch(operand)
            | Instr::Miss(operand)
            | Instr::Call(operand)
            | Instr::Jump(operand) => operand,
            _ => 0,
        }
    }
}
