//! The 31 instructions.

/// An instruction. Those that add need a current buffer, and those that skip add nothing.
#[derive(Clone, Copy, Debug, PartialEq, Eq)]
pub enum Instr {
    /// Moves a boolean.
    Bool,
    /// Moves an int, in its shortest encoding.
    Int,
    /// Moves a long, in its shortest encoding.
    Long,
    /// Moves bytes, with their length.
    Bytes,
    /// Moves a string, with its length.
    Text,
    /// Moves bytes that have to be UTF-8: the index of the miss where they are not.
    BytesText(u32),
    /// Moves a fixed with this number of bytes.
    Fixed(u32),
    /// Reads the position of a symbol, and adds what the map at this index makes of it.
    Enum(u32),
    /// Skips a boolean.
    SkipBool,
    /// Skips an int.
    SkipInt,
    /// Skips a long.
    SkipLong,
    /// Skips bytes, with their length.
    SkipBytes,
    /// Skips a string, with its length.
    SkipText,
    /// Skips a fixed with this number of bytes.
    SkipFixed(u32),
    /// Skips the position of a symbol, in an enum with this number of symbols.
    SkipEnum(u32),
    /// Adds the constant at this index.
    Put(u32),
    /// Opens a record with this number of slots.
    Record(u32),
    /// Selects the slot at this index.
    Slot(u32),
    /// Closes a record, and adds its slots in their order.
    EndRecord,
    /// Opens a record that is skipped.
    Enter,
    /// Closes a record that is skipped.
    Leave,
    /// Opens an array or a map.
    Blocks,
    /// Goes to the next item, or else closes the array or map and jumps to this address.
    Next(u32),
    /// Opens an array or a map that is skipped.
    SkipBlocks,
    /// Goes to the next item that is skipped, or else closes the array or map and jumps to this address.
    SkipNext(u32),
    /// Reads the position of a branch, and jumps to its address in the jump table at this index.
    Branch(u32),
    /// Reports the miss at this index.
    Miss(u32),
    /// Calls the routine at this address.
    Call(u32),
    /// Returns from a routine.
    Return,
    /// Jumps to this address.
    Jump(u32),
    /// Ends the run.
    Halt,
}
