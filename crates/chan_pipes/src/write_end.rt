//! What bytes are written to, and how its end is told.

use std::io;
use std::io::{Stderr, Stdout, Write};
use std::net::{Shutdown, TcpStream};
use std::os::fd::AsRawFd;
use std::process::ChildStdin;

/// A writer whose descriptor can be waited for. Its end is told to the reader before it is let go.
pub trait WriteEnd: Write + AsRawFd + Drop {
    /// Tells the reader that nothing more comes, where letting go of the descriptor does not.
    fn end(&mut self) -> io::Result<()>;
}

impl WriteEnd for TcpStream {
    /// The receiving half holds the same connection (RFC 9293, 3.6).
    fn end(&mut self) -> io::Result<()> {
        self.shutdown(Shutdown::Write)
    }
}

impl WriteEnd for ChildStdin {
    fn end(&mut self) -> io::Result<()> {
        Ok(())
    }
}

impl WriteEnd for Stdout {
    fn end(&mut self) -> io::Result<()> {
        self.flush()
    }
}

impl WriteEnd for Stderr {
    fn end(&mut self) -> io::Result<()> {
        self.flush()
    }
}
