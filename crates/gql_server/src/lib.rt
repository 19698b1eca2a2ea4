//! A server of connections.
#![tactic(auto)]

mod fault;
mod listener;
mod mem_network;
mod mem_socket;
mod mio_network;
mod net_listener;
mod network;
mod one_by_one;
mod place;
mod report;
mod room;
mod socket;
mod status;
mod tcp_socket;
mod together;

pub use fault::ServeFault;
pub use listener::{AcceptFailed, Listener};
pub use mem_network::{Arrival, MemNetwork, Wait};
pub use mem_socket::{MemRead, MemSocket, MemWrite, Script};
pub use mio_network::MioNetwork;
pub use net_listener::NetListener;
pub use network::{AcceptFault, Network, WaitFailed};
pub use one_by_one::serve_on;
pub use place::{End, MAX_READS, Next, Place, new_piece};
pub use report::Report;
pub use socket::{Socket, SocketFailed};
pub use status::status_of_serve;
pub use together::serve_together;
