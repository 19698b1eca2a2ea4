//! A connection to a registry, over which requests are sent and answers are read.

use gql_folder_files::Failure;
use gql_push::{AnswerSpan, Reply, Report, answer_in, reply_in, report_in, write_report};
use std::alloc::AllocError;
use std::io::{Read, Write};
use std::net::TcpStream;
use std::thread;
use std::time::Duration;

/// The greatest number of bytes of an answer that is read.
const MAX_ANSWER_BYTES: usize = 1_073_741_824;

/// The greatest number of bytes that a read brings.
const PIECE_BYTES: usize = 16_384;

/// Why there is no answer.
#[derive(Drop)]
pub enum NoAnswer {
    /// The server cannot be reached, closes the connection, or answers as no registry does.
    NoServer,
    /// An allocation failed.
    Memory,
}

impl From<AllocError> for NoAnswer {
    fn from(_: AllocError) -> NoAnswer {
        NoAnswer::Memory
    }
}

impl From<NoAnswer> for Failure {
    fn from(fault: NoAnswer) -> Failure {
        match fault {
            NoAnswer::NoServer => Failure::NoServer,
            NoAnswer::Memory => Failure::Memory,
        }
    }
}

/// A connection, and the bytes that were read and belong to no answer yet.
#[derive(Drop)]
pub struct Connection {
    stream: TcpStream,
    rest: Vec<u8>,
}

impl Connection {
    /// A connection to a server, once it is there; it is waited for so many seconds.
    pub fn open(rt: &HostRuntime, server: &str, seconds: u64) -> Result<Connection, NoAnswer> {
        for _ in 0..=seconds {
            if let Ok(stream) = TcpStream::connect(rt, server) {
                return Ok(Connection {
                    stream,
                    rest: Vec::new(rt.alloc()),
                });
            }
            if seconds > 0 {
                let _ = thread::sleep(rt, Duration::from_secs(1));
            }
        }
        Err(NoAnswer::NoServer)
    }

    /// Sends requests.
    pub fn send(&mut self, requests: &[u8]) -> Result<(), NoAnswer> {
        match (&self.stream).write_all(requests) {
            Ok(()) => Ok(()),
            Err(_) => Err(NoAnswer::NoServer),
        }
    }

    /// Reads more bytes, and returns whether there were some.
    fn read_more(&mut self) -> Result<bool, NoAnswer> {
        let mut piece = [0u8; PIECE_BYTES];
        match (&self.stream).read(&mut piece) {
            Ok(count) if count <= piece.len() => {
                self.rest.extend_from_slice(&piece[..count])?;
                Ok(count > 0)
            }
            _ => Err(NoAnswer::NoServer),
        }
    }

    /// Reads until there is a whole answer.
    fn whole_answer(&mut self) -> Result<AnswerSpan, NoAnswer> {
        for _ in 0..MAX_ANSWER_BYTES {
            match answer_in(self.rest.as_slice()) {
                Ok(Some(span)) => return Ok(span),
                Ok(None) => {}
                Err(()) => return Err(NoAnswer::NoServer),
            }
            if !self.read_more()? || self.rest.len() > MAX_ANSWER_BYTES {
                return Err(NoAnswer::NoServer);
            }
        }
        Err(NoAnswer::NoServer)
    }

    /// The status and the body of the next answer.
    fn answer(&mut self, rt: &HostRuntime) -> Result<(u16, Vec<u8>), NoAnswer> {
        let span = self.whole_answer()?;
        let mut body = Vec::new(rt.alloc());
        if let Some(bytes) = self.rest.get(span.body..span.end) {
            body.extend_from_slice(bytes)?;
        }
        let mut rest = Vec::new(rt.alloc());
        if let Some(after) = self.rest.get(span.end..) {
            rest.extend_from_slice(after)?;
        }
        self.rest = rest;
        Ok((span.status, body))
    }

    /// What the next answer says, to an edit.
    pub fn reply(&mut self, rt: &HostRuntime) -> Result<Reply, NoAnswer> {
        let (status, body) = self.answer(rt)?;
        let reply = reply_in(rt.alloc(), status, body.as_slice())?;
        Ok(reply)
    }

    /// What the registry at this host reports.
    pub fn report(&mut self, rt: &HostRuntime, host: &str) -> Result<Report, NoAnswer> {
        let mut request = Vec::new(rt.alloc());
        write_report(rt.alloc(), &mut request, host)?;
        self.send(request.as_slice())?;
        let (status, body) = self.answer(rt)?;
        match report_in(rt.alloc(), status, body.as_slice())? {
            Some(report) => Ok(report),
            None => Err(NoAnswer::NoServer),
        }
    }
}
