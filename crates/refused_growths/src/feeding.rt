//! Each growth refused in turn while a connection is fed a piece of several requests.
use crate::tally::Tally;
use crate::tool::{MOST_GROWTHS, Refused, came, refuse, refuse_none};
use gql_http::{Fed, Hub};
use gql_registry::Registry;
use std::alloc::Global;

/// Requests to a service on an empty registry, of which the last ones come in one piece; and the
/// operations whose runs are compared.
#[derive(Drop)]
pub struct Feeding<'a> {
    pub alloc: Global,
    pub before: &'a [String],
    pub piece: &'a [String],
    pub operations: &'a [String],
}

/// What is given without any refusal: the answer to each request of the piece, and the state before
/// the piece and after each of them.
#[derive(Drop)]
struct Whole {
    answers: Vec<Vec<u8>>,
    states: Vec<Vec<u8>>,
}

/// A request with a body.
pub fn request_of(alloc: Global, line: &str) -> Option<String> {
    let (method, rest) = line.split_once(" ")?;
    let (target, body) = rest.split_once(" ").unwrap_or((rest, ""));
    let length = body.len();
    format!(in alloc; "{method} {target} HTTP/1.1\r\nContent-Length: {length}\r\n\r\n{body}").ok()
}

/// The texts one after the other, from the one at a place on.
fn joined(alloc: Global, texts: &[String], from: usize) -> Option<Vec<u8>> {
    let mut bytes = Vec::new(alloc);
    for (place, text) in texts.iter().enumerate() {
        if place >= from {
            bytes.extend_from_slice(text.as_str().as_bytes()).ok()?;
        }
    }
    Some(bytes)
}

/// Feeds a piece to an open connection, which nothing refuses.
fn feed(alloc: Global, hub: &mut Hub, connection: u8, piece: &[u8]) -> Option<Vec<u8>> {
    if !hub.is_open(connection) {
        return None;
    }
    let fed = hub.feed(connection, piece);
    if fed.memory {
        return None;
    }
    Vec::from_slice(alloc, fed.out.as_slice()).ok()
}

/// The first answers of a list, this many, one after the other.
fn first_answers(alloc: Global, answers: &[Vec<u8>], count: usize) -> Option<Vec<u8>> {
    let mut bytes = Vec::new(alloc);
    for answer in answers.iter().take(count) {
        bytes.extend_from_slice(answer.as_slice()).ok()?;
    }
    Some(bytes)
}

impl Whole {
    /// How many requests these bytes are the answers to; none if they are not whole answers alone.
    fn answered(&self, alloc: Global, out: &[u8]) -> Option<usize> {
        for count in 0..self.answers.len() {
            let whole = first_answers(alloc, self.answers.as_slice(), count)?;
            if whole.as_slice() == out {
                return Some(count);
            }
        }
        None
    }

    /// Whether a state is that after so many requests.
    fn is_state(&self, state: &[u8], count: usize) -> bool {
        match self.states.get(count) {
            Some(whole) => whole.as_slice() == state,
            None => false,
        }
    }
}

impl Feeding<'_> {
    /// The service before the piece, with connection 0 open.
    fn hub(&self) -> Option<Hub> {
        let mut hub = Hub::new(self.alloc, Registry::new(self.alloc).ok()?);
        hub.open(0).ok()?;
        feed(
            self.alloc,
            &mut hub,
            0,
            joined(self.alloc, self.before, 0)?.as_slice(),
        )?;
        Some(hub)
    }

    /// The report, with the revision, and what each operation answers, over a connection that is
    /// opened for it.
    fn state(&self, hub: &mut Hub) -> Option<Vec<u8>> {
        hub.open(1).ok()?;
        let mut state = feed(self.alloc, hub, 1, b"GET /report HTTP/1.1\r\n\r\n")?;
        for name in self.operations {
            let name = name.as_str();
            let line = format!(in self.alloc; "POST /run {{\"operationName\":\"{name}\"}}").ok()?;
            let request = request_of(self.alloc, line.as_str())?;
            let mut answer = feed(self.alloc, hub, 1, request.as_str().as_bytes())?;
            state.append(&mut answer).ok()?;
        }
        hub.close(1);
        Some(state)
    }

    fn whole(&self) -> Option<Whole> {
        let mut hub = self.hub()?;
        let mut answers = Vec::new(self.alloc);
        let mut states = Vec::new(self.alloc);
        states.push(self.state(&mut hub)?).ok()?;
        for request in self.piece {
            answers
                .push(feed(self.alloc, &mut hub, 0, request.as_str().as_bytes())?)
                .ok()?;
            states.push(self.state(&mut hub)?).ok()?;
        }
        Some(Whole { answers, states })
    }

    /// What is different after a feed that had no memory, or nothing: whole answers alone are out,
    /// the state is that after the requests so answered, and the connection is not open. The other
    /// requests, on a new connection, are answered as without any refusal.
    fn differs_without_memory(
        &self,
        whole: &Whole,
        hub: &mut Hub,
        fed: &Fed,
    ) -> Option<&'static str> {
        if hub.is_open(0) || !fed.closed {
            return Some("the connection is open");
        }
        let Some(count) = whole.answered(self.alloc, fed.out.as_slice()) else {
            return Some("what is out is not whole answers alone");
        };
        if !whole.is_state(self.state(hub)?.as_slice(), count) {
            return Some("the state is not that after the requests that are answered");
        }
        hub.open(0).ok()?;
        let rest = joined(self.alloc, self.piece, count)?;
        let mut all = first_answers(self.alloc, whole.answers.as_slice(), count)?;
        let mut answers = feed(self.alloc, hub, 0, rest.as_slice())?;
        all.append(&mut answers).ok()?;
        self.differs_at_end(whole, hub, all.as_slice())
    }

    /// What is different after all requests were answered with these bytes, or nothing.
    fn differs_at_end(&self, whole: &Whole, hub: &mut Hub, out: &[u8]) -> Option<&'static str> {
        let count = self.piece.len();
        let expected = first_answers(self.alloc, whole.answers.as_slice(), count)?;
        if out != expected.as_slice() {
            return Some("other answers");
        }
        if !whole.is_state(self.state(hub)?.as_slice(), count) {
            return Some("another state follows");
        }
        Some("")
    }

    /// Feeds the piece with the nth growth refused. Returns whether it had so many; and what is
    /// different, or nothing.
    fn attempt(&self, whole: &Whole, refused: Refused, n: u16) -> Option<(bool, &'static str)> {
        let mut hub = self.hub()?;
        let piece = joined(self.alloc, self.piece, 0)?;
        if !hub.is_open(0) {
            return None;
        }
        refuse(self.alloc, refused, n);
        let fed = hub.feed(0, piece.as_slice());
        let is_refused = came(self.alloc, n);
        refuse_none(self.alloc);
        if !is_refused {
            let out = fed.out.as_slice();
            return Some((false, self.differs_at_end(whole, &mut hub, out)?));
        }
        if !fed.memory {
            return Some((true, "an answer stands in place of the refusal"));
        }
        let different = self.differs_without_memory(whole, &mut hub, &fed)?;
        Some((true, different))
    }

    /// Feeds the piece with each growth refused in turn.
    fn refuse_each(
        &self,
        line: &str,
        whole: &Whole,
        refused: Refused,
        tally: &mut Tally,
    ) -> Option<()> {
        for n in 1..MOST_GROWTHS {
            let (is_refused, different) = self.attempt(whole, refused, n)?;
            if !different.is_empty() {
                tally.differ(line, n, different).ok()?;
            }
            if !is_refused {
                return Some(());
            }
            tally.add_growth();
        }
        tally.differ(line, MOST_GROWTHS, "no end of growths").ok()
    }

    /// Feeds the piece with each growth refused in turn, alone and with all after it.
    pub fn each_growth_refused(&self, line: &str, tally: &mut Tally) -> Option<()> {
        let whole = self.whole()?;
        self.refuse_each(line, &whole, Refused::One, tally)?;
        self.refuse_each(line, &whole, Refused::AllFrom, tally)
    }
}
