//! The exit status of a program that serves connections.
ghost use Rattle.std.specs.Prelude.{◌≡◌};
ghost use Rattle.gql_server.specs.Statuses.{serve_status};

use crate::fault::ServeFault;

/// The exit status of a program that serves connections: 0 if it served them all, 4 if an allocation
/// failed before the first one was accepted, and 1 for any other fault.
pub fn status_of_serve(served: &Result<(), ServeFault>) -> u8
    ensures { result ≡ serve_status served.now }
{
    match served {
        Ok(()) => 0,
        Err(ServeFault::Memory) => 4,
        Err(_) => 1,
    }
}
