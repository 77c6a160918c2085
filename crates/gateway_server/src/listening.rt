//! A listener that several threads watch, of which one is woken for a connection.

use libc::net::{EPOLL_CTL_ADD, EPOLL_CTL_DEL, EPOLLIN};
use mio::Poll;
use mio::net::TcpListener;
use std::io;
use std::os::fd::AsRawFd;

/// Wakes one thread of those that wait for the same listener (Linux, `EPOLLEXCLUSIVE`).
const EXCLUSIVE: u32 = 1 << 28;

/// The key under which connections to be accepted are reported.
pub(crate) const NEW: usize = usize::MAX;

/// The key under which it is reported that another thread has woken this one.
pub(crate) const WAKE: usize = usize::MAX - 1;

/// Adds the listener to a set, or takes it away. The error is the system's.
fn control(poll: &Poll, operation: i32, listener: &TcpListener) -> io::Result<()> {
    let (set, listener) = (poll.as_raw_fd(), listener.as_raw_fd());
    if os::epoll_ctl(set, operation, listener, EPOLLIN | EXCLUSIVE, NEW as u64) < 0 {
        return Err(io::Error::from_raw_os_error(os::errno()));
    }
    Ok(())
}

/// Makes the set report connections to be accepted. The error is the system's.
pub(crate) fn watch(poll: &Poll, listener: &TcpListener) -> io::Result<()> {
    control(poll, EPOLL_CTL_ADD, listener)
}

/// Makes the set report no more connections.
pub(crate) fn leave(poll: &Poll, listener: &TcpListener) {
    let _ = control(poll, EPOLL_CTL_DEL, listener);
}
