//! Options of a connection's socket for which its stream has no call.

use libc::net as c;
use mio::net::TcpStream;
use std::io;
use std::os::fd::AsRawFd;

/// An option of a connection's socket, whose value is a number.
#[derive(Clone, Copy)]
pub(crate) enum SocketOption {
    /// Whether the system asks a silent peer whether it is there, and ends the connection of one that doesn't answer.
    KeepAlive,
    /// After so many seconds of silence it asks first.
    KeepAliveIdle,
    /// It asks again each so many seconds.
    KeepAliveInterval,
    /// So often it asks without an answer.
    KeepAliveCount,
    /// Whether the system acknowledges what came at once. It goes back to waiting a while by itself.
    QuickAck,
}

impl SocketOption {
    /// Gives the option this value at a stream.
    pub(crate) fn set(self, stream: &TcpStream, value: u32) -> io::Result<()> {
        let mut octets = [0u8; 16];
        octets[..4].copy_from_slice(&value.to_ne_bytes());
        if self.ask(stream, &octets) < 0 {
            return Err(io::Error::from_raw_os_error(os::errno()));
        }
        Ok(())
    }

    /// The call of the system by which it gets the value that the first four of these octets are. Each names its option, so
    /// that it is proved to be one that the call takes.
    fn ask(self, stream: &TcpStream, octets: &[u8; 16]) -> i32 {
        let fd = stream.as_raw_fd();
        let (socket, tcp) = (c::SOL_SOCKET, c::IPPROTO_TCP);
        unsafe {
            match self {
                SocketOption::KeepAlive => c::setsockopt(fd, socket, c::SO_KEEPALIVE, octets, 4),
                SocketOption::KeepAliveIdle => c::setsockopt(fd, tcp, c::TCP_KEEPIDLE, octets, 4),
                SocketOption::KeepAliveInterval => {
                    c::setsockopt(fd, tcp, c::TCP_KEEPINTVL, octets, 4)
                }
                SocketOption::KeepAliveCount => c::setsockopt(fd, tcp, c::TCP_KEEPCNT, octets, 4),
                SocketOption::QuickAck => c::setsockopt(fd, tcp, c::TCP_QUICKACK, octets, 4),
            }
        }
    }
}
