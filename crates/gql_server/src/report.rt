//! What a wait of a network reports.

/// Which sockets may be ready, and whether a connection may wait to be accepted.
#[derive(Clone, Copy)]
pub struct Report {
    /// Whether a connection may wait to be accepted.
    pub has_connection: bool,
    /// Whether the socket that is watched under a number may be ready, for each number.
    pub sockets: [bool; 16],
}
