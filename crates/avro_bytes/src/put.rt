//! Writing a number in its shortest encoding.

ghost use Rattle.std.specs.Prelude.{◌≡◌, ◌≤◌, ◌++◌, length, OnOk, OnErr};
ghost use Rattle.spec_avro.specs.Number.{zigzag};
ghost use Rattle.avro_bytes.specs.Shortest.{Extends};
ghost use Rattle.spec_avro.specs.Shortest.{shortest, shortest_groups};

use crate::limits::LONG_BYTES;
use std::alloc::AllocError;

/// Returns the zig-zag form of an integer: 0, -1, 1, -2, 2 .. as 0, 1, 2, 3, 4 ..
fn zigzag_of(n: i64) -> u64
    ensures { result ≡ zigzag n }
{
    if n >= 0 {
        n as u64 * 2
    } else {
        -(n + 1) as u64 * 2 + 1
    }
}

/// Appends a number in groups of seven bits a byte, the least first. An `Err` leaves a beginning of them.
fn put_groups(out: &mut Vec<u8>, n: u64) -> Result<(), AllocError>
    ensures ok { OnOk result (out.new.items ≡ out.old.items ++ shortest_groups LONG_BYTES n) }
    ensures err { OnErr result (Extends out.old.items out.new.items) }
{
    let mut rest = n;
    while rest >= 128 {
        out.push((rest % 128) as u8 + 128)?;
        rest /= 128;
    }
    out.push(rest as u8)?;
    Ok(())
}

/// Returns how many bytes a number takes in groups of seven bits.
fn groups_len(n: u64) -> usize
    ensures len { result ≡ length (shortest_groups LONG_BYTES n) }
    ensures most { result ≤ LONG_BYTES }
{
    let mut rest = n;
    let mut len = 1;
    while rest >= 128 {
        rest /= 128;
        len += 1;
    }
    len
}

/// Returns how many bytes `number` has in its shortest encoding.
#[tactic(auto, unfolding(spec_avro::specs::Shortest::shortest))]
pub fn long_len(number: i64) -> usize
    ensures len { result ≡ length (shortest number) }
    ensures most { result ≤ LONG_BYTES }
{
    groups_len(zigzag_of(number))
}

/// Appends a number in its shortest encoding. An `Err` leaves the vector as it was.
#[tactic(auto, unfolding(spec_avro::specs::Shortest::shortest))]
pub fn put_long(out: &mut Vec<u8>, number: i64) -> Result<(), AllocError>
    ensures ok { OnOk result (out.new.items ≡ out.old.items ++ shortest number) }
    ensures err { OnErr result (out.new.items ≡ out.old.items) }
{
    let len = out.len();
    let put = put_groups(out, zigzag_of(number));
    if put.is_err() {
        out.truncate(len);
    }
    put
}
