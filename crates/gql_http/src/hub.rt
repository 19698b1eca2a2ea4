//! The service and its connections.
ghost use Rattle.std.specs.Prelude.{◌≡◌, ◌≤◌, IsTrue};
ghost use Rattle.gql_registry.specs.State.{state_of};
ghost use Rattle.gql_http.specs.Limits.{all_have_limit, body_limit_of, limit_in};

use crate::serve::serve;
use gql_ast::Profile;
use gql_registry::Registry;
use gql_wire::{Framer, GREATEST_BODY_LIMIT};
use std::alloc::Global;
use thiserror::Error;

/// Connections have the numbers below this one.
pub const CONNECTIONS: u8 = 16;

/// Why a connection is not opened.
#[derive(Clone, Copy, Debug, PartialEq, Eq, Error)]
pub enum OpenRefusal {
    /// 321: no connection has the number.
    #[error("no such connection")]
    NoSuch,
    /// 322: the connection is open already.
    #[error("connection is open")]
    AlreadyOpen,
}

/// The result of feeding a piece of bytes.
pub struct Fed {
    /// The answers to the requests that the piece completed, in their order.
    pub out: Vec<u8>,
    /// Whether the connection was closed, by a request or because an allocation failed.
    pub closed: bool,
    /// Whether an allocation failed. The request that was being made changes nothing.
    pub memory: bool,
}

impl Drop for Fed {
    fn drop(self) {
        let Fed {
            out: _,
            closed: _,
            memory: _,
        } = self;
    }
}

/// The registry and the connections to it, each with the bytes of an unfinished request. The limit of
/// bodies is that of the registry's profile.
pub struct Hub {
    alloc: Global,
    registry: Registry,
    framers: [Option<Framer>; 16],
    ghost limits: { IsTrue (all_have_limit (limit_in (state_of registry)) framers) },
}

impl Drop for Hub {
    fn drop(self) {
        let Hub {
            alloc: _,
            registry: _,
            framers: _,
        } = self;
    }
}

/// The most bytes of a body under this profile.
fn body_limit_of(profile: Profile) -> usize
    ensures value { result ≡ body_limit_of profile }
    ensures within { result ≤ GREATEST_BODY_LIMIT }
{
    profile.limits.body.min(GREATEST_BODY_LIMIT)
}

impl Hub {
    ghost use Rattle.std.specs.Prelude.{◌≡◌, ◌≤◌, ◌<◌, ◌↔◌, [], Some, None, slice_set, get_or, is_none, IsTrue, IsSome, IsErrOf, OnErr};
    ghost use Rattle.gql_registry.specs.State.{state_of};
    ghost use Rattle.gql_http.specs.Events.{Event, opens, closes, all_closed, Does};
    ghost use Rattle.gql_http.specs.Hubs.{service_of, rests_of, is_unfinished, IsFeedOf};
    ghost use Rattle.gql_http.specs.declared.hub.OpenRefusal.TheVariants.{NoSuch, AlreadyOpen};

    /// The service on a registry, with every connection closed.
    pub fn new(alloc: Global, registry: Registry) -> Hub
        ensures service { service_of result ≡ state_of registry }
        ensures closed { rests_of result ≡ all_closed }
    {
        Hub {
            alloc,
            registry,
            framers: [
                None, None, None, None, None, None, None, None, None, None, None, None, None, None,
                None, None,
            ],
        }
    }

    /// Whether a connection is open.
    pub fn is_open(&self, connection: u8) -> bool
        ensures { IsTrue result ↔ IsSome (rests_of self.now connection) }
    {
        match self.framers.get(usize::from(connection)) {
            Some(framer) => framer.is_some(),
            None => false,
        }
    }

    /// Whether a connection holds an unfinished request.
    pub fn has_rest(&self, connection: u8) -> bool
        ensures { result ≡ is_unfinished (rests_of self.now connection) }
    {
        match self.framers.get(usize::from(connection)) {
            Some(Some(framer)) => framer.has_rest(),
            _ => false,
        }
    }

    /// Opens a connection: its bytes begin anew. Every other connection stays as it was.
    pub fn open(&mut self, connection: u8) -> Result<(), OpenRefusal>
        ensures does { Does (service_of self.old) (rests_of self.old) (opens connection) []
            (service_of self.new) (rests_of self.new) }
        ensures no_such { IsErrOf result NoSuch ↔ (CONNECTIONS ≤ connection) }
        ensures already { IsErrOf result AlreadyOpen ↔ IsSome (rests_of self.old connection) }
        ensures err { OnErr result (self.new ≡ self.old) }
    {
        if connection >= CONNECTIONS {
            return Err(OpenRefusal::NoSuch);
        }
        if self.is_open(connection) {
            return Err(OpenRefusal::AlreadyOpen);
        }
        let limit = body_limit_of(self.registry.profile());
        self.framers[usize::from(connection)] = Some(Framer::within(self.alloc, limit));
        Ok(())
    }

    /// Closes a connection and drops its unfinished bytes. One that is not open stays so. Every
    /// other connection is as it was.
    pub fn close(&mut self, connection: u8)
        ensures { Does (service_of self.old) (rests_of self.old) (closes connection) []
            (service_of self.new) (rests_of self.new) }
    {
        if self.is_open(connection) {
            self.framers[usize::from(connection)] = None;
        }
    }

    /// Takes the next bytes of an open connection. Each request that they complete is made before
    /// the call returns, and its answer is in `out`. Every other connection is as it was.
    pub fn feed(&mut self, connection: u8, piece: &[u8]) -> Fed
        requires open { IsSome (rests_of self.old connection) }
        ensures does { (e : Event) × IsFeedOf connection piece.now result.memory e
            × Does (service_of self.old) (rests_of self.old) e result.out.items
            (service_of self.new) (rests_of self.new) }
        ensures closed { result.closed ≡ is_none (rests_of self.new connection) }
    {
        let mut out = Vec::new(self.alloc);
        let index = usize::from(connection);
        let Some(mut framer) = self.take_framer(connection) else {
            unreachable!();
        };
        match serve(self.alloc, &mut self.registry, &mut framer, piece, &mut out) {
            Ok(closed) => {
                if closed {
                    return Fed {
                        out,
                        closed: true,
                        memory: false,
                    };
                }
                self.framers[index] = Some(framer);
                Fed {
                    out,
                    closed: false,
                    memory: false,
                }
            }
            Err(_) => Fed {
                out,
                closed: true,
                memory: true,
            },
        }
    }

    /// Takes the framer of an open connection, which is closed then.
    fn take_framer(&mut self, connection: u8) -> Option<Framer>
        requires { connection < CONNECTIONS }
        ensures value { result ≡ get_or self.old.framers connection None }
        ensures closed { self.new.framers ≡ slice_set self.old.framers connection None }
        ensures same { service_of self.new ≡ service_of self.old }
    {
        self.framers[usize::from(connection)].take()
    }
}
