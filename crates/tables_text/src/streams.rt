//! The requests of a stream of bytes (RFC 9112, 2 and 3), which comes in pieces.
use crate::bytes::{bytes_in, quoted_bytes, write_characters};
use gql_wire::{Framed, Framer};
use std::alloc::{AllocError, Global};
use table_rows::join;

/// A stream as far as it came.
#[derive(Drop)]
struct Stream {
    alloc: Global,
    framer: Framer,
    found: Vec<Framed>,
    /// Whether a request closed the connection, after which nothing is read.
    is_closed: bool,
}

fn closes(framed: &Framed) -> bool {
    match framed {
        Framed::Request { closing, .. } => *closing,
        Framed::Refused { .. } => true,
    }
}

/// More bytes than these are written as their count.
const SHORT: usize = 64;

fn write_target(text: &mut String, target: &[u8]) -> Result<(), AllocError> {
    let count = target.len();
    if count > SHORT {
        write!(text, "{count} bytes")
    } else {
        write_characters(text, target)
    }
}

fn write_body(text: &mut String, body: &[u8]) -> Result<(), AllocError> {
    let count = body.len();
    if count > SHORT {
        return write!(text, "{count} bytes");
    }
    let body = quoted_bytes(*text.allocator(), body)?;
    text.push_str(body.as_str())
}

/// Adds a request as its method, its target and its body, and a refused head as its number.
fn write_request(text: &mut String, framed: &Framed) -> Result<(), AllocError> {
    match framed {
        Framed::Request {
            method,
            target,
            body,
            closing,
        } => {
            write_characters(text, method.as_slice())?;
            text.push_str(" ")?;
            write_target(text, target.as_slice())?;
            text.push_str(" ")?;
            write_body(text, body.as_slice())?;
            text.push_str(if *closing { " close" } else { "" })
        }
        Framed::Refused { number, bodiless } => {
            let end = if *bodiless { " bodiless" } else { "" };
            let number = number.number();
            write!(text, "{number}{end}")
        }
    }
}

impl Stream {
    fn new(alloc: Global) -> Stream {
        Stream {
            alloc,
            framer: Framer::new(alloc),
            found: Vec::new(alloc),
            is_closed: false,
        }
    }

    /// Takes a piece, up to the end of a request that closes the connection.
    fn feed(&mut self, piece: &[u8]) -> Result<(), AllocError> {
        let mut rest = piece;
        while !rest.is_empty() && !self.is_closed {
            let (taken, framed) = self.framer.take(rest)?;
            rest = &rest[taken..];
            if let Some(framed) = framed {
                self.is_closed = closes(&framed);
                self.found.push(framed)?;
            }
        }
        Ok(())
    }

    /// Its requests, and `rest` if an unfinished one is held.
    fn written(&self) -> Result<String, AllocError> {
        let mut written = String::new(self.alloc);
        let mut between = "";
        for framed in self.found.as_slice() {
            written.push_str(between)?;
            write_request(&mut written, framed)?;
            between = "; ";
        }
        if self.framer.has_rest() {
            join(&mut written, "; ", "rest")?;
        }
        if written.is_empty() {
            written.push_str("nothing")?;
        }
        Ok(written)
    }
}

/// The requests of a stream that is cut at this place.
fn cut_at(alloc: Global, bytes: &[u8], place: usize) -> Result<String, AllocError> {
    let place = place.min(bytes.len());
    let mut stream = Stream::new(alloc);
    stream.feed(&bytes[..place])?;
    stream.feed(&bytes[place..])?;
    stream.written()
}

/// The requests of a stream that comes a byte at a time.
fn byte_by_byte(alloc: Global, bytes: &[u8]) -> Result<String, AllocError> {
    let mut stream = Stream::new(alloc);
    for byte in bytes {
        stream.feed(&[*byte])?;
    }
    stream.written()
}

/// The requests of a stream, which are the same whole, cut at each place and a byte at a time.
fn in_any_pieces(alloc: Global, bytes: &[u8]) -> Result<String, AllocError> {
    let whole = cut_at(alloc, bytes, 0)?;
    for place in 1..bytes.len() {
        if cut_at(alloc, bytes, place)?.as_str() != whole.as_str() {
            return format!(in alloc; "another where it is cut at {place}");
        }
    }
    if byte_by_byte(alloc, bytes)?.as_str() != whole.as_str() {
        return String::from_str(alloc, "another byte by byte");
    }
    Ok(whole)
}

/// The requests of a stream, in any pieces, or where it is cut at one place: `cut at PLACE`.
pub fn requests_answer(alloc: Global, text: &str, question: &str) -> Option<String> {
    let bytes = bytes_in(alloc, text)?;
    if question.is_empty() {
        return in_any_pieces(alloc, bytes.as_slice()).ok();
    }
    let place = question.strip_prefix("cut at ")?.parse::<usize>().ok()?;
    cut_at(alloc, bytes.as_slice(), place).ok()
}
