//! The command `serve`, from the options that clap found.
ghost use Rattle.std.specs.Prelude.{◌≡◌, ◌↔◌, ◌<◌, ◌^◌, ℕ, Some, IfSome, IsTrue};
ghost use Rattle.clap.specs.Words.{found_of, rows_of};
ghost use Rattle.gql_command.specs.CommandLine.{IsAtOnce, IsConnections, IsPort};
ghost use Rattle.gql_command.specs.Grammar.{GivesAtOnce, IsRefusal, ReadsNumbers};

use crate::command::{Command, CommandFault};
use clap::ArgMatches;
use std::alloc::Global;

/// The greatest number of connections at one time.
const MOST_AT_ONCE: u8 = 16;

/// The command `serve` with the numbers of its options. The grammar has tested their ranges. They
/// are tested here again, so that the ranges do not depend on clap.
pub fn serve(alloc: Global, options: &ArgMatches<'_>) -> Result<Command, CommandFault>
    ensures { ReadsNumbers (rows_of (found_of options.now)) result }
{
    let port = options.get_one::<u16>("port");
    let connections = options.get_one::<u32>("connections");
    let at_once = at_once_of(options);
    match (port, connections, at_once) {
        (Some(port), Some(connections), Some(at_once))
            if are_in_range(port, connections, at_once) => {
            Ok(Command::Serve {
                port,
                connections,
                at_once,
            })
        }
        _ => Err(out_of_range(alloc)),
    }
}

/// The number of connections at one time, 16 if the option is left out. None if it is no number of
/// the type.
fn at_once_of(options: &ArgMatches<'_>) -> Option<u8>
    ensures some { IfSome result (λ at_once. GivesAtOnce (rows_of (found_of options.now)) at_once) }
    ensures none { (at_once : ℕ) → at_once < 2 ^ 8
        → GivesAtOnce (rows_of (found_of options.now)) at_once → result ≡ Some at_once }
{
    match options.try_get_one::<u8>("at-once") {
        Ok(Some(at_once)) => Some(at_once),
        Ok(None) => Some(MOST_AT_ONCE),
        Err(_) => None,
    }
}

fn are_in_range(port: u16, connections: u32, at_once: u8) -> bool
    ensures { IsTrue result ↔ (IsPort port × IsConnections connections × IsAtOnce at_once) }
{
    port >= 1 && (1..=1_000_000).contains(&connections) && (1..=MOST_AT_ONCE).contains(&at_once)
}

fn out_of_range(alloc: Global) -> CommandFault
    ensures { IsRefusal result }
{
    let text =
        "error: a port is 1 to 65535, a number of connections 1 to 1000000, and 1 to 16 at once\n";
    match String::from_str(alloc, text) {
        Ok(text) => CommandFault::Refused(text),
        Err(_) => CommandFault::Memory,
    }
}
