//! Transcripts of a service with several connections: what each step gives.
use crate::bytes::bytes_in;
use crate::profiles::profile_named;
use crate::written_answers::written_answers;
use gql_http::{Hub, OpenRefusal};
use gql_registry::Registry;
use std::alloc::Global;
use table_rows::{join, unquoted};

/// The bytes of a request that `METHOD TARGET` or `METHOD TARGET BODY` says. A character of the
/// body is a byte, and `(empty)` an empty body.
pub fn written_request(alloc: Global, request: &str) -> Option<String> {
    let (method, rest) = request.split_once(" ")?;
    match rest.split_once(" ") {
        Some((target, body)) => {
            let body = if body == "(empty)" { "" } else { body };
            let length = body.chars().count();
            format!(in alloc;
                "{method} {target} HTTP/1.1\r\nContent-Length: {length}\r\n\r\n{body}"
            )
        }
        None => format!(in alloc; "{method} {rest} HTTP/1.1\r\n\r\n"),
    }
    .ok()
}

/// A service and its connections.
#[derive(Drop)]
pub struct Transcript {
    alloc: Global,
    hub: Hub,
}

impl Transcript {
    /// A service on an empty registry, with every connection closed.
    pub fn new(alloc: Global) -> Option<Transcript> {
        let registry = Registry::new(alloc).ok()?;
        Some(Transcript {
            alloc,
            hub: Hub::new(alloc, registry),
        })
    }

    fn open(&mut self, connection: u8) -> &'static str {
        match self.hub.open(connection) {
            Ok(()) => "opened",
            Err(OpenRefusal::NoSuch) => "no such connection",
            Err(OpenRefusal::AlreadyOpen) => "already open",
        }
    }

    /// Feeds bytes to a connection. Returns the answers that this gave or `nothing`, and `closes`
    /// if a request closed the connection; `closed` if it was not open.
    fn feed(&mut self, connection: u8, piece: &[u8]) -> Option<String> {
        if !self.hub.is_open(connection) {
            return String::from_str(self.alloc, "closed").ok();
        }
        let fed = self.hub.feed(connection, piece);
        let mut written = written_answers(self.alloc, fed.out.as_slice(), "; ")?;
        if written.is_empty() {
            written.push_str("nothing").ok()?;
        }
        if fed.memory {
            written.push_str("; memory").ok()?;
        } else if fed.closed {
            written.push_str("; closes").ok()?;
        }
        Some(written)
    }

    /// Feeds what `NUMBER STRING` says.
    fn feed_string(&mut self, rest: &str) -> Option<String> {
        let (connection, text) = rest.split_once(" ")?;
        let connection = connection.parse::<u8>().ok()?;
        let piece = bytes_in(self.alloc, unquoted(self.alloc, text)?.as_str())?;
        self.feed(connection, piece.as_slice())
    }

    /// Feeds the request that `NUMBER METHOD TARGET BODY` says.
    fn feed_request(&mut self, rest: &str) -> Option<String> {
        let (connection, request) = rest.split_once(" ")?;
        let connection = connection.parse::<u8>().ok()?;
        let bytes = bytes_in(self.alloc, written_request(self.alloc, request)?.as_str())?;
        self.feed(connection, bytes.as_slice())
    }

    /// What a step that says a word and the number of a connection gives: `open`, `close` or
    /// `is-open`.
    fn short_step(&mut self, word: &str, connection: &str) -> Option<&'static str> {
        let connection = connection.parse::<u8>().ok()?;
        match word {
            "open" => Some(self.open(connection)),
            "close" => {
                self.hub.close(connection);
                Some("closed")
            }
            "is-open" => Some(if self.hub.is_open(connection) {
                "yes"
            } else {
                "no"
            }),
            _ => None,
        }
    }

    /// Begins a new service on an empty registry, under the profile of this name, if there is one.
    fn begin(&mut self, profile: &str) -> Option<String> {
        let registry = match profile {
            "" => Registry::new(self.alloc),
            _ => Registry::with(self.alloc, profile_named(profile)?),
        };
        let registry = registry.ok()?;
        self.hub = Hub::new(self.alloc, registry);
        String::from_str(self.alloc, "begun").ok()
    }

    /// What a step gives: `begin`, `begin PROFILE`, `open NUMBER`, `close NUMBER`, `is-open NUMBER`, `feed NUMBER
    /// STRING` or `request NUMBER METHOD TARGET BODY`.
    pub fn step(&mut self, step: &str) -> Option<String> {
        let (word, rest) = step.split_once(" ").unwrap_or((step, ""));
        match word {
            "begin" => self.begin(rest),
            "feed" => self.feed_string(rest),
            "request" => self.feed_request(rest),
            _ => String::from_str(self.alloc, self.short_step(word, rest)?).ok(),
        }
    }
}

/// What steps on a new service give, with commas between them. No step is a `feed` or a `request`,
/// which may have commas.
pub fn connections_answer(alloc: Global, steps: &str) -> Option<String> {
    let mut transcript = Transcript::new(alloc)?;
    let mut written = String::new(alloc);
    for step in steps.split(", ") {
        let answer = transcript.step(step)?;
        join(&mut written, ", ", answer.as_str()).ok()?;
    }
    Some(written)
}
