//! The requests of a stream of bytes, in any pieces, the heads of their answers, and the other end
//! of a connection, which bytes come from and go to.
#![tactic(auto)]

mod answer;
mod device_peer;
mod head;
pub mod laws;
mod mem_peer;
mod number;
mod part;
mod peer;
mod stream;

pub use answer::{ANSWER_HEAD_ROOM, Allow, answer_head};
pub use device_peer::DevicePeer;
pub use head::HeadRefusal;
pub use mem_peer::{MemPeer, Moves, Passed};
pub use number::number_in;
pub use peer::{Peer, ReadFailed, WriteFailed, write_all};
pub use stream::{Framed, Framer, GREATEST_BODY_LIMIT};
