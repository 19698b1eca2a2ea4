//! The sockets of a network, which never wait.
ghost use Rattle.std.specs.Prelude.{◌≡◌, ◌+◌, MatchResult, None, false, true};

use crate::socket::{Socket, SocketFailed};
use mio::net::TcpStream;
use std::io::{ErrorKind, Read, Write};

/// A connection of the network. It reports no bytes.
#[derive(Drop)]
pub struct TcpSocket {
    pub stream: TcpStream,
    /// Whether a call has failed.
    pub has_failed: bool,
    /// Whether a read found the end of the input.
    pub ended: bool,
    /// How many calls found that nothing can be read or written now.
    pub waits: u64,
}

impl TcpSocket {
    /// A socket of which nothing was read.
    pub fn new(stream: TcpStream) -> TcpSocket
        ensures { result ≡ record { stream = stream; has_failed = false; ended = false; waits = 0 } }
    {
        TcpSocket {
            stream,
            has_failed: false,
            ended: false,
            waits: 0,
        }
    }

    /// Notes that nothing can be read or written now. A socket that has found that 2^64 - 1 times
    /// fails.
    fn wait(&mut self) -> Result<Option<usize>, SocketFailed>
        ensures waits { MatchResult result
            (λ found. (found ≡ None) × (self.new.waits ≡ self.old.waits + 1)
            × (self.new.has_failed ≡ self.old.has_failed))
            (λ _. (self.new.waits ≡ self.old.waits) × (self.new.has_failed ≡ true)) }
        ensures ended { self.new.ended ≡ self.old.ended }
    {
        if self.waits == u64::MAX {
            self.has_failed = true;
            return Err(SocketFailed);
        }
        self.waits += 1;
        Ok(None)
    }
}

impl Socket for TcpSocket {
    ghost line = { λ s. record {
      transcript = None;
      has_failed = s.has_failed;
      ended = s.ended;
      waits = s.waits;
    } };

    fn read(&mut self, piece: &mut [u8]) -> Result<Option<usize>, SocketFailed> {
        let is_empty = piece.is_empty();
        match self.stream.read(piece) {
            Ok(count) => {
                if count == 0 && !is_empty {
                    self.ended = true;
                }
                Ok(Some(count))
            }
            Err(error) if error.kind() == ErrorKind::WouldBlock => self.wait(),
            Err(_) => {
                self.has_failed = true;
                Err(SocketFailed)
            }
        }
    }

    fn write(&mut self, bytes: &[u8]) -> Result<Option<usize>, SocketFailed> {
        match self.stream.write(bytes) {
            Ok(count) if count > 0 => Ok(Some(count)),
            Err(error) if error.kind() == ErrorKind::WouldBlock => self.wait(),
            _ => {
                self.has_failed = true;
                Err(SocketFailed)
            }
        }
    }
}
