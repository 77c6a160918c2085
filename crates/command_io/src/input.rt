//! Reading a whole input.

ghost use Rattle.std.specs.Prelude.{◌≡◌, ◌⊎◌, ◌<◌, length, IfErr, IfOk, IfSome};

use crate::run_error::RunError;
use std::alloc::Global;
use std::io::{ErrorKind, Read};

/// How often a reader is asked at most.
pub const MOST_READS: u64 = 1_073_741_824;

/// How many bytes a reader is asked for at once.
const PIECE: usize = 65_536;

/// Returns all that the reader has left. It fails, too, where the reader has not ended after `MOST_READS` reads.
pub fn read_all<R: Read>(alloc: Global, reader: &mut R) -> Result<Vec<u8>, RunError>
    ensures ok { IfOk result (λ all. IfSome (R.remaining reader.old) (λ input. all.items ≡ input)) }
    ensures fault { IfErr result (λ e. (e ≡ RunError.Read) ⊎ (e ≡ RunError.NoMemory)) }
{
    let mut buffer = vec![in alloc; 0u8; PIECE]?;
    read_by_pieces(alloc, reader, &mut buffer)
}

/// Returns all that the reader has left, as `read_all` does, by reads into `piece`.
fn read_by_pieces<R: Read>(
    alloc: Global,
    reader: &mut R,
    piece: &mut [u8],
) -> Result<Vec<u8>, RunError>
    requires { 0 < length piece.old }
    ensures ok { IfOk result (λ all. IfSome (R.remaining reader.old) (λ input. all.items ≡ input)) }
    ensures fault { IfErr result (λ e. (e ≡ RunError.Read) ⊎ (e ≡ RunError.NoMemory)) }
{
    let mut all = Vec::new(alloc);
    for _turn in 0..MOST_READS {
        match reader.read(piece) {
            Ok(0) => return Ok(all),
            Ok(count) => all.extend_from_slice(&piece[..count])?,
            Err(error) if error.kind() == ErrorKind::Interrupted => {}
            Err(_) => return Err(RunError::Read),
        }
    }
    Err(RunError::Read)
}
