//! A trait of what looks names up and connects, in any thread.

use std::io;
use std::net::{SocketAddr, TcpStream};
use std::time::Duration;

/// The number of addresses of a name that are tried at most.
pub const MOST_ADDRESSES: usize = 8;

/// What looks names up and connects, in any thread. The program implements it by its runtime, since no thread may be
/// given a handle `Net` through a type parameter.
pub trait Dial {
    /// Looks up the addresses of a name, each with the port.
    ///
    /// Returns their number, and writes them to the front of `found`: the first ones where there are more than it has
    /// room for.
    fn look_up(
        &self,
        host: &str,
        port: u16,
        found: &mut [SocketAddr; MOST_ADDRESSES],
    ) -> io::Result<usize>;

    /// Returns a connection to an address. The error is `TimedOut` where none is made within the time.
    fn dial(&self, address: SocketAddr, time: Duration) -> io::Result<TcpStream>;
}
