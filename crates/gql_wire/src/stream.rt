//! The requests of a stream of bytes, which come in any pieces.
ghost use Rattle.std.specs.Prelude.{◌≡◌, ◌+◌, ◌<◌, ◌≤◌, ◌-◌, Some, None, ◌++◌, ◌∷◌, [], List, ℕ, length, take, IfOk, OnErr, IfNone, IfSome, MatchOption, nat_lt};
ghost use Rattle.gql_wire.specs.Stream.{IsUnfinished, IsRequest, req, begins_blank, skip_blank};
ghost use Rattle.gql_wire.specs.Framing.{begun};
ghost use Rattle.gql_wire.specs.Head.{body_limit};
ghost use Rattle.gql_wire.specs.Held.{IsHeld, GrowsByLine, IsBodyOpen, IsBodyDone, Advances};

use crate::head::{HeadOutcome, HeadRefusal, read_head};
use crate::part::{front, line_len, rest_from};
use httparse::spans::Span;
use std::alloc::{AllocError, Global};
use std::marker::Model;

/// The most bytes that a head may have (`head_limit` in contracts).
const MAX_HEAD_BYTES: usize = 8192;

/// The most bytes that a body may have, unless another limit is given (`body_limit` in contracts).
const MAX_BODY_BYTES: usize = 262_144;

/// The greatest limit of bodies that a framer can be given.
pub const GREATEST_BODY_LIMIT: usize = 67_108_864;

/// A request, or a refused head.
#[derive(Debug, Drop, PartialEq, Eq)]
pub enum Framed {
    /// A whole request.
    Request {
        /// The method's bytes.
        method: Vec<u8>,
        /// The target's bytes.
        target: Vec<u8>,
        /// The body's bytes.
        body: Vec<u8>,
        /// Whether the connection closes after the answer.
        closing: bool,
    },
    /// A refused head. The connection closes after the answer.
    Refused {
        /// Why it is refused.
        number: HeadRefusal,
        /// Whether the answer has no body: the head could be read, and its method is HEAD.
        bodiless: bool,
    },
}

/// A whole head: its length, where its parts are, and the length of its body.
#[derive(Clone, Copy)]
struct Pending {
    head: usize,
    method: Span,
    target: Span,
    length: usize,
    closing: bool,
}

/// What to do after more bytes of a head.
#[derive(Clone, Copy)]
enum Advance {
    /// The bytes are CR LF before a head: drop them.
    Blank,
    /// The head is not complete: wait for more.
    More,
    /// The head is complete: wait for its body.
    Await(Pending),
    /// The request is complete, and has no body.
    Done(Pending),
    /// The head is refused.
    Refuse {
        refusal: HeadRefusal,
        bodiless: bool,
    },
}

/// The bytes of an unfinished request, its head if that is whole, and the most bytes of its body.
#[derive(Drop)]
struct Unfinished {
    bytes: Vec<u8>,
    pending: Option<Pending>,
    limit: usize,
}

/// The unfinished request at the end of a stream. In contracts its value is the bytes that it
/// holds, with the limit of bodies. Pairs CR LF before a head are dropped at once.
#[derive(Drop)]
pub struct Framer {
    held: Unfinished,
}

impl Model for Framer {
    ghost use Rattle.std.specs.Prelude.{◌≤◌};
    ghost use Rattle.gql_wire.specs.Framing.{Framing};
    ghost use Rattle.gql_wire.specs.Head.{greatest_body_limit};
    ghost use Rattle.gql_wire.specs.Held.{IsHeld};

    ghost Value = { Framing };

    ghost view = { λ f. record { limit = f.held.limit; bytes = f.held.bytes.items } };

    ghost invariant = { λ f. IsHeld f.held.limit f.held.bytes.items f.held.pending
        × (f.held.limit ≤ greatest_body_limit) };
}

/// Whether the bytes begin with CR LF.
fn begins_with_blank(bytes: &[u8]) -> bool
    ensures { result ≡ begins_blank bytes.now }
{
    matches!(bytes, [b'\r', b'\n', ..])
}

/// What to do with these bytes of a head, after at most one line of them was added. `limit` is the
/// most bytes of a body.
fn advance_head(limit: usize, bytes: &[u8]) -> Advance
    requires { GrowsByLine bytes.now }
    ensures { Advances limit bytes.now result }
{
    if begins_with_blank(bytes) {
        Advance::Blank
    } else if bytes.ends_with(b"\r\n\r\n") {
        match read_head(limit, bytes) {
            HeadOutcome::Refuse { refusal, bodiless } => Advance::Refuse { refusal, bodiless },
            HeadOutcome::Expects {
                method,
                target,
                length,
                closing,
            } => {
                let pending = Pending {
                    head: bytes.len(),
                    method,
                    target,
                    length,
                    closing,
                };
                if length == 0 {
                    Advance::Done(pending)
                } else {
                    Advance::Await(pending)
                }
            }
        }
    } else if bytes.len() == MAX_HEAD_BYTES {
        Advance::Refuse {
            refusal: HeadRefusal::LongHead,
            bodiless: false,
        }
    } else {
        Advance::More
    }
}

/// The request that the bytes are.
fn request_of(held: &Unfinished, pending: Pending) -> Result<Framed, AllocError>
    requires { IsBodyDone held.now.limit held.now.bytes.items pending }
    ensures { IfOk result (λ framed.
        IsRequest held.now.limit held.now.bytes.items (req framed)) }
{
    let alloc = *held.bytes.allocator();
    let bytes = held.bytes.as_slice();
    let head = &bytes[..pending.head];
    let method = Vec::from_slice(alloc, pending.method.of(head))?;
    let target = Vec::from_slice(alloc, pending.target.of(head))?;
    let body = Vec::from_slice(alloc, &bytes[pending.head..])?;
    let closing = pending.closing;
    Ok(Framed::Request {
        method,
        target,
        body,
        closing,
    })
}

/// Takes bytes of a head, up to the end of a line. Returns how many, and the request that they
/// complete.
fn push_head(held: &mut Unfinished, piece: &[u8]) -> Result<(usize, Option<Framed>), AllocError>
    requires held { IsHeld held.old.limit held.old.bytes.items None }
    requires none { held.old.pending ≡ None }
    requires some { 0 < length piece.now }
    ensures held { IsHeld held.old.limit held.new.bytes.items held.new.pending }
    ensures limit { held.new.limit ≡ held.old.limit }
    ensures within { IfOk result (λ taken. (0 < taken.0) × (taken.0 ≤ length piece.now)) }
    ensures found { IfOk result (λ taken. MatchOption taken.1
        (held.new.bytes.items ≡ skip_blank (held.old.bytes.items ++ take taken.0 piece.now))
        (λ framed. (held.new.bytes.items ≡ []) × IsRequest held.old.limit
        (held.old.bytes.items ++ take taken.0 piece.now) (req framed))) }
    ensures emptied { OnErr result (held.new.bytes.items ≡ []) }
{
    let count = line_len(piece).min(MAX_HEAD_BYTES - held.bytes.len());
    let Ok(()) = held.bytes.extend_from_slice(front(piece, count)) else {
        held.bytes.clear();
        return Err(AllocError);
    };
    match advance_head(held.limit, held.bytes.as_slice()) {
        Advance::Blank => {
            held.bytes.clear();
            Ok((count, None))
        }
        Advance::More => Ok((count, None)),
        Advance::Await(expected) => {
            held.pending = Some(expected);
            Ok((count, None))
        }
        Advance::Done(expected) => {
            let framed = request_of(held, expected);
            held.bytes.clear();
            Ok((count, Some(framed?)))
        }
        Advance::Refuse { refusal, bodiless } => {
            held.bytes.clear();
            Ok((
                count,
                Some(Framed::Refused {
                    number: refusal,
                    bodiless,
                }),
            ))
        }
    }
}

/// Takes the missing bytes of a body, as many of them as the piece has. Returns how many, and the
/// request that they complete.
fn fill_body(
    held: &mut Unfinished,
    expected: Pending,
    piece: &[u8],
) -> Result<(usize, Option<Framed>), AllocError>
    requires held { IsBodyOpen held.old.limit held.old.bytes.items expected }
    requires bounded { held.old.limit ≤ GREATEST_BODY_LIMIT }
    requires same { held.old.pending ≡ Some expected }
    requires some { 0 < length piece.now }
    ensures held { IsHeld held.old.limit held.new.bytes.items held.new.pending }
    ensures limit { held.new.limit ≡ held.old.limit }
    ensures within { IfOk result (λ taken. (0 < taken.0) × (taken.0 ≤ length piece.now)) }
    ensures found { IfOk result (λ taken. MatchOption taken.1
        (held.new.bytes.items ≡ skip_blank (held.old.bytes.items ++ take taken.0 piece.now))
        (λ framed. (held.new.bytes.items ≡ []) × IsRequest held.old.limit
        (held.old.bytes.items ++ take taken.0 piece.now) (req framed))) }
    ensures emptied { OnErr result (held.new.bytes.items ≡ []) }
{
    let missing = expected.head + expected.length - held.bytes.len();
    let count = missing.min(piece.len());
    let Ok(()) = held.bytes.extend_from_slice(front(piece, count)) else {
        held.bytes.clear();
        held.pending = None;
        return Err(AllocError);
    };
    if count < missing {
        return Ok((count, None));
    }
    let framed = request_of(held, expected);
    held.bytes.clear();
    held.pending = None;
    Ok((count, Some(framed?)))
}

impl Framer {
    /// A framer that holds nothing. A body may have 262,144 bytes.
    pub fn new(alloc: Global) -> Self
        ensures { result ≡ begun body_limit }
    {
        Framer::within(alloc, MAX_BODY_BYTES)
    }

    /// A framer that holds nothing. A body may have as many bytes as `limit` says.
    pub fn within(alloc: Global, limit: usize) -> Self
        requires { limit ≤ GREATEST_BODY_LIMIT }
        ensures { result ≡ begun limit }
    {
        Framer {
            held: Unfinished {
                bytes: Vec::new(alloc),
                pending: None,
                limit,
            },
        }
    }

    /// Takes bytes up to the end of a line of the head, or up to the end of the body. Returns how
    /// many, and the request that they complete.
    fn step(&mut self, piece: &[u8]) -> Result<(usize, Option<Framed>), AllocError>
        requires { 0 < length piece.now }
        ensures limit { self.new.limit ≡ self.old.limit }
        ensures within { IfOk result (λ taken. (0 < taken.0) × (taken.0 ≤ length piece.now)) }
        ensures found { IfOk result (λ taken. MatchOption taken.1
            (self.new.bytes ≡ skip_blank (self.old.bytes ++ take taken.0 piece.now))
            (λ framed. (self.new.bytes ≡ []) × IsRequest self.old.limit
            (self.old.bytes ++ take taken.0 piece.now) (req framed))) }
        ensures emptied { OnErr result (self.new.bytes ≡ []) }
    {
        match self.held.pending {
            None => push_head(&mut self.held, piece),
            Some(expected) => fill_body(&mut self.held, expected, piece),
        }
    }

    /// Does nothing: its contract is what every framer meets. The bytes that it holds do not begin
    /// with CR LF, and no front of them is a request.
    fn touch(&self)
        ensures begun { skip_blank self.now.bytes ≡ self.now.bytes }
        ensures unfinished { IsUnfinished self.now.limit self.now.bytes }
    {
        let _held = &self.held;
    }

    /// Takes bytes up to the end of the first request that they complete. Returns how many it took,
    /// and the request. If they complete no request, it takes all of them and holds the unfinished
    /// request. If an allocation fails, the bytes that it held are lost.
    pub fn take(&mut self, piece: &[u8]) -> Result<(usize, Option<Framed>), AllocError>
        ensures limit { self.new.limit ≡ self.old.limit }
        ensures within { IfOk result (λ taken. taken.0 ≤ length piece.now) }
        ensures moved { IfOk result (λ taken. IfSome taken.1 (λ _. 0 < taken.0)) }
        ensures more { IfOk result (λ taken. IfNone taken.1 ((taken.0 ≡ length piece.now)
            × (self.new.bytes ≡ skip_blank (self.old.bytes ++ piece.now)))) }
        ensures none { IfOk result (λ taken.
            IfNone taken.1 (IsUnfinished self.old.limit (self.old.bytes ++ piece.now))) }
        ensures framed { IfOk result (λ taken. IfSome taken.1 (λ framed. (self.new.bytes ≡ [])
            × IsRequest self.old.limit (self.old.bytes ++ take taken.0 piece.now) (req framed))) }
        ensures rest { IfOk result (λ _. IsUnfinished self.new.limit self.new.bytes) }
        ensures emptied { OnErr result (self.new.bytes ≡ []) }
    {
        self.touch();
        let mut taken = 0;
        'parts: while taken < piece.len() {
            let (count, framed) = self.step(rest_from(piece, taken))?;
            taken += count;
            if let Some(framed) = framed {
                self.touch();
                return Ok((taken, Some(framed)));
            }
        }
        self.touch();
        Ok((taken, None))
    }

    /// Whether the framer holds an unfinished request.
    pub fn has_rest(&self) -> bool
        ensures { result ≡ nat_lt 0 (length self.now.bytes) }
    {
        !self.held.bytes.is_empty()
    }
}
