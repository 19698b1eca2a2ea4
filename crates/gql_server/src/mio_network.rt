//! The network of the system.
ghost use Rattle.std.specs.Prelude.{◌≡◌, None};

use crate::fault::ServeFault;
use crate::network::{AcceptFault, Network, WaitFailed};
use crate::report::Report;
use crate::tcp_socket::TcpSocket;
use mio::net::TcpListener;
use mio::{Events, Interest, Poll, Token};
use std::alloc::Global;
use std::io::ErrorKind;
use std::net::Net;
use std::time::{Clock, Duration, Instant};

/// The token of the listener; the token of a socket is its number.
const LISTENER: Token = Token(16);

/// How many events a wait reports at most.
const EVENTS: usize = 64;

/// The connections of a listener of the system. It reports none of them.
#[derive(Drop)]
pub struct MioNetwork<'a, R: Net + Clock> {
    rt: &'a R,
    poll: Poll,
    events: Events,
    listener: TcpListener,
}

impl<'a, R: Net + Clock> MioNetwork<'a, R> {
    /// Watches a listener, none of whose connections is accepted yet.
    pub fn new(
        rt: &'a R,
        alloc: Global,
        listener: TcpListener,
    ) -> Result<MioNetwork<'a, R>, ServeFault> {
        let mut listener = listener;
        let Ok(poll) = Poll::new(rt) else {
            return Err(ServeFault::WaitFailed);
        };
        let Ok(events) = Events::with_capacity(alloc, EVENTS) else {
            return Err(ServeFault::Memory);
        };
        let Ok(()) = poll
            .registry()
            .register(&mut listener, LISTENER, Interest::READABLE)
        else {
            return Err(ServeFault::WaitFailed);
        };
        Ok(MioNetwork {
            rt,
            poll,
            events,
            listener,
        })
    }
}

/// What events report.
fn report_of(events: &Events) -> Report {
    let mut has_connection = false;
    let mut sockets = [false; 16];
    for event in events.iter() {
        let token = event.token();
        if token == LISTENER {
            has_connection = true;
        } else if token.0 < sockets.len() {
            sockets[token.0] = true;
        }
    }
    Report {
        has_connection,
        sockets,
    }
}

impl<'a, R: Net + Clock> Network<TcpSocket> for MioNetwork<'a, R> {
    ghost traffic = { λ _. None };

    fn now(&self) -> Result<Instant, WaitFailed> {
        match Instant::now(self.rt) {
            Ok(now) => Ok(now),
            Err(_) => Err(WaitFailed),
        }
    }

    fn accept(&mut self) -> Result<Option<TcpSocket>, AcceptFault> {
        match self.listener.accept() {
            Ok((stream, _)) => Ok(Some(TcpSocket::new(stream))),
            Err(error) => match error.kind() {
                ErrorKind::WouldBlock => Ok(None),
                // The peer is gone, or a signal came: the next may be there.
                ErrorKind::ConnectionAborted | ErrorKind::Interrupted => Err(AcceptFault::Passing),
                _ => Err(AcceptFault::Failed),
            },
        }
    }

    fn watch(&mut self, socket: &mut TcpSocket, number: u8) -> Result<(), WaitFailed> {
        let both = Interest::READABLE | Interest::WRITABLE;
        let token = Token(usize::from(number));
        let Ok(()) = socket.stream.set_nodelay(true) else {
            return Err(WaitFailed);
        };
        let Ok(()) = self
            .poll
            .registry()
            .register(&mut socket.stream, token, both)
        else {
            return Err(WaitFailed);
        };
        Ok(())
    }

    fn wait(&mut self, most: Option<Duration>) -> Result<Report, WaitFailed> {
        let Ok(()) = self.poll.poll(&mut self.events, most) else {
            return Err(WaitFailed);
        };
        Ok(report_of(&self.events))
    }

    fn take_back(&mut self, _socket: TcpSocket) {}
}
