//! The grammar of the command line, as a command of clap.
ghost use Rattle.std.specs.Prelude.{◌≡◌, IfOk, false};
ghost use Rattle.clap.specs.Words.{app_of, rule_of, shape_of};
ghost use Rattle.clap.specs.declared.builder.command.Command.TheViews.{out-Command};
ghost use Rattle.gql_command.specs.Grammar.{at_once_option, command_line, connections_option, port_option};
ghost use Rattle.gql_command.specs.Grammar.{serve as serve_shape};

use clap::{Arg, Command, value_parser};
use gql_version::VERSION;
use std::alloc::{AllocError, Global};

/// The end of the program's help.
const AFTER_HELP: &str = "\
Folders, each with a --help of its own:
  gqlreg check DIR        checks the schema and the operations of a folder
  gqlreg usage DIR PART   says who reads a part of the schema of a folder
  gqlreg push DIR         puts the files of a folder into a registry

Requests:
  PUT /schema/NAME        puts the body as the schema file of this name
  DELETE /schema/NAME     removes it
  PUT /documents/NAME     puts the body as the document file of this name:
                          operations and fragments
  DELETE /documents/NAME  removes it
  PUT /data               puts the body as the data, a JSON object
  GET /report             reports the faults of all files
  POST /run               runs a stored operation; the body is a JSON object
                          with operationName and variables, or {}
PUT and DELETE may expect a revision, as in /schema/NAME?revision=3.

Profiles, by --profile NAME after a command:
  whole-numbers           no Float, no subscriptions; pipe and serve have it if
                          none is named
  october-2021            with both, and files of up to 4 MiB; check, usage and
                          push have it if none is named

Status: 0 all requests are answered, 1 a read, a write or the network failed,
2 a bad command line, 3 the input ended within a request, 4 out of memory";

/// The end of the help of `pipe` and `serve`. The option is taken before clap reads the others.
const AFTER_SERVICE_HELP: &str = "\
      --profile <NAME>  What is served: whole-numbers, or october-2021 with Float, subscriptions and
                        large files; whole-numbers if left out";

fn port<'a>(alloc: Global) -> Arg<'a>
    ensures option { rule_of result ≡ port_option }
    ensures local { result.global ≡ false }
{
    Arg::new(alloc, "port")
        .long("port")
        .value_name("P")
        .required(true)
        .value_parser(value_parser!(u16).range(1..=65_535))
        .help("The port of 127.0.0.1 to listen on, 1 to 65535")
}

fn connections<'a>(alloc: Global) -> Arg<'a>
    ensures option { rule_of result ≡ connections_option }
    ensures local { result.global ≡ false }
{
    Arg::new(alloc, "connections")
        .long("connections")
        .value_name("N")
        .required(true)
        .value_parser(value_parser!(u32).range(1..=1_000_000))
        .help("The number of connections to answer before the program ends, 1 to 1000000")
}

fn at_once<'a>(alloc: Global) -> Arg<'a>
    ensures option { rule_of result ≡ at_once_option }
    ensures local { result.global ≡ false }
{
    Arg::new(alloc, "at-once")
        .long("at-once")
        .value_name("K")
        .value_parser(value_parser!(u8).range(1..=16))
        .help("The number of connections to serve at one time, 1 to 16; 16 if left out")
}

fn serve<'a>(alloc: Global) -> Result<Command<'a>, AllocError>
    ensures shape { IfOk result (λ c. shape_of c ≡ serve_shape) }
    ensures local { IfOk result (λ c. (out-Command c).has_globals ≡ false) }
{
    Command::new(alloc, "serve")
        .about("Answers HTTP/1.1 requests over connections to 127.0.0.1, many at one time")
        .after_help(AFTER_SERVICE_HELP)
        .arg(port(alloc))?
        .arg(connections(alloc))?
        .arg(at_once(alloc))
}

/// The grammar of the whole command line.
pub fn grammar<'a>(alloc: Global) -> Result<Command<'a>, AllocError>
    ensures { IfOk result (λ g. app_of g ≡ command_line) }
{
    let pipe = Command::new(alloc, "pipe")
        .about("Answers the HTTP/1.1 requests of standard input on standard output")
        .after_help(AFTER_SERVICE_HELP);
    Command::new(alloc, "gqlreg")
        .version(VERSION)
        .about("A registry of a GraphQL schema and of operations, over HTTP/1.1")
        .after_help(AFTER_HELP)
        .subcommand_required(true)
        .subcommand(pipe)?
        .subcommand(serve(alloc)?)
}
