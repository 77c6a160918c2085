//! Writing a whole output.

ghost use Rattle.std.specs.Prelude.{◌≡◌, OnOk, OnErr, IfErr};
ghost use Rattle.std.specs.Io.KnownBytes.{Appends, Keeps};
ghost use Rattle.command_io.specs.Traffic.{Begins};

use crate::run_error::RunError;
use std::io::{ErrorKind, Write};

/// How often a writer is asked at most.
pub const MOST_WRITES: u64 = 1_073_741_824;

/// Writes all the bytes, or a beginning of them. It fails, too, where `MOST_WRITES` writes do not suffice.
pub fn write_whole<W: Write>(writer: &mut W, bytes: &[u8]) -> Result<(), RunError>
    ensures ok { OnOk result (Appends (W.contents writer.old) (W.contents writer.new) bytes.now) }
    ensures fault { IfErr result (λ e. e ≡ RunError.Write) }
    ensures err { OnErr result (Begins (W.contents writer.old) (W.contents writer.new) bytes.now) }
{
    let mut sent = 0;
    for _turn in 0..MOST_WRITES {
        if sent >= bytes.len() {
            return flush(writer);
        }
        match writer.write(&bytes[sent..]) {
            Ok(0) => return Err(RunError::Write),
            Ok(count) => sent += count,
            Err(error) if error.kind() == ErrorKind::Interrupted => {}
            Err(_) => return Err(RunError::Write),
        }
    }
    Err(RunError::Write)
}

/// Flushes the writer.
fn flush<W: Write>(writer: &mut W) -> Result<(), RunError>
    ensures fault { IfErr result (λ e. e ≡ RunError.Write) }
    ensures kept { Keeps (W.contents writer.old) (W.contents writer.new) }
{
    writer.flush().map_err(|_| RunError::Write)
}
