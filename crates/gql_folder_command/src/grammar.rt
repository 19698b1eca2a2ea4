//! The grammar of the command lines of commands on a folder, as a command of clap.

use crate::options::{FORMATS, USAGE_FORMATS};
use clap::builder::ValueParser;
use clap::{Arg, ArgAction, Command, value_parser};
use gql_command::PROFILES;
use std::alloc::{AllocError, Global};

/// The end of the help of `check`.
const AFTER_CHECK: &str = "\
DIR has the files of a team:
  DIR/schema/       schema files: .graphql, .graphqls or .gql
  DIR/documents/    operations and fragments of clients
  DIR/data.json     the data that operations are run on, if there is one
Folders may be in these folders: documents/web/home.graphql is the file web.home. Names have 1 to 255
letters, digits, `_`, `.` and `-` (64 in the profile whole-numbers); those that begin with a dot are
left out.

A manifest of persisted operations is Apollo's, or Relay's map of texts. Each operation of it is a
document of its own, and the fragments are in another. With --base its operations are those of both
folders.

No faults means that the stored operations are valid. It does not mean that calls answer as before:
values of variables and types of answers are not checked.

Status: 0 no faults (with --base: none brought), 1 faults, 2 a file or the command line is refused,
4 out of memory";

fn base<'a>(alloc: Global) -> Arg<'a> {
    Arg::new(alloc, "base").long("base").value_name("DIR").help(
        "Compare with this folder: faults brought and mended, operations broken and healed",
    )
}

fn format<'a>(alloc: Global) -> Arg<'a> {
    Arg::new(alloc, "format")
        .long("format")
        .value_name("FORMAT")
        .value_parser(FORMATS.as_slice())
        .help("How the check is written; text if left out")
}

fn manifest<'a>(alloc: Global) -> Arg<'a> {
    Arg::new(alloc, "manifest")
        .long("manifest")
        .value_name("FILE")
        .action(ArgAction::Append)
        .help("Add the operations of this manifest, each as a document; may be given again")
}

fn profile<'a>(alloc: Global) -> Arg<'a> {
    Arg::new(alloc, "profile")
        .long("profile")
        .value_name("NAME")
        .value_parser(PROFILES.as_slice())
        .help("The profile of the registry that is meant; october-2021 if left out")
}

fn output<'a>(alloc: Global) -> Arg<'a> {
    Arg::new(alloc, "output")
        .long("output")
        .value_name("FILE")
        .help("Write to this file, and not to standard output")
}

/// The command `check`.
fn check<'a>(alloc: Global) -> Result<Command<'a>, AllocError> {
    let arguments = vec![in alloc;
        folder(alloc),
        profile(alloc),
        base(alloc),
        manifest(alloc),
        format(alloc),
        output(alloc),
    ]?;
    Command::new(alloc, "check")
        .about("Checks the schema and the operations of a folder, as the registry would")
        .after_help(AFTER_CHECK)
        .args(arguments)
}

/// The end of the help of `push`.
const AFTER_PUSH: &str = "\
The folder is checked first, and nothing is put where a file is refused. Then the files that differ
from the last push are put, and those that are gone are removed. What was pushed is kept in a file:
DIR/.gqlreg-push, unless --state gives another. Each edit expects the revision that the one before
it left, so that no edit of somebody else is lost: where there was one since the last push, nothing
is put. A push that stops keeps what it has put, and the next one goes on.

Status: 0 all is put, 1 there are faults (with --fail-on-faults), 2 a file or the command line is
refused, 3 somebody else has edited the registry, 4 out of memory, 5 no server";

fn flag<'a>(alloc: Global, name: &'a str, help: &'a str) -> Arg<'a> {
    Arg::new(alloc, name)
        .long(name)
        .action(ArgAction::SetTrue)
        .help(help)
}

fn folder<'a>(alloc: Global) -> Arg<'a> {
    Arg::new(alloc, "DIR")
        .required(true)
        .help("The folder of a team's files")
}

fn server<'a>(alloc: Global) -> Arg<'a> {
    Arg::new(alloc, "to")
        .long("to")
        .value_name("HOST:PORT")
        .required(true)
        .help("The server of the registry, as 127.0.0.1:8080")
}

fn state<'a>(alloc: Global) -> Arg<'a> {
    Arg::new(alloc, "state")
        .long("state")
        .value_name("FILE")
        .help("The file that keeps what was pushed")
}

/// The parser of a number of seconds, at most those of a day.
fn seconds<'a>() -> ValueParser<'a> {
    value_parser!(u64).range(0..=86_400)
}

fn wait<'a>(alloc: Global) -> Arg<'a> {
    Arg::new(alloc, "wait")
        .long("wait")
        .value_name("SECONDS")
        .value_parser(seconds())
        .help("Wait so long for a server that is not there yet")
}

/// The command `push`.
fn push<'a>(alloc: Global) -> Result<Command<'a>, AllocError> {
    let faults = "Put nothing if the folder has faults";
    let force = "Put all files, although somebody else has edited the registry";
    let arguments = vec![in alloc;
        folder(alloc),
        profile(alloc),
        server(alloc),
        manifest(alloc),
        flag(
            alloc,
            "all",
            "Put all files, those too that were pushed before"
        ),
        state(alloc),
        wait(alloc),
        flag(alloc, "fail-on-faults", faults),
        flag(alloc, "force", force),
    ]?;
    Command::new(alloc, "push")
        .about("Puts the files of a folder into a registry, over one connection")
        .after_help(AFTER_PUSH)
        .args(arguments)
}

/// The end of the help of `usage`.
const AFTER_USAGE: &str = "\
PART is a field, as Product.price, a type, a value of an enum, as Status.OPEN, a field of an input
object, an argument, as 'Query.users(first:)', a directive, as @beta, or an argument of a directive, as
'@beta(since:)'. It is read by the stored operations and fragments that have a new fault, or lose their
root operation type, once it is removed: by themselves, or by a fragment that they use.

After the readers come the faults that the schema has without the part. While the schema has faults,
there is no answer.

Status: 0 answered, 1 the schema has faults, 2 a file or the command line is refused, or the schema
has no such part, 4 out of memory";

fn part<'a>(alloc: Global) -> Result<Arg<'a>, AllocError> {
    Arg::new(alloc, "PART")
        .help(
            "The part of the schema: TYPE.FIELD, TYPE, ENUM.VALUE, TYPE.FIELD(ARGUMENT:) or @DIRECTIVE",
        )
        .required_unless_present("unused")?
        .conflicts_with("unused")
}

fn usage_format<'a>(alloc: Global) -> Arg<'a> {
    Arg::new(alloc, "format")
        .long("format")
        .value_name("FORMAT")
        .value_parser(USAGE_FORMATS.as_slice())
        .help("How the answer is written; text if left out")
}

/// The command `usage`.
fn usage<'a>(alloc: Global) -> Result<Command<'a>, AllocError> {
    let unused = "List the parts of the schema that no stored operation reads";
    let part = part(alloc)?;
    let arguments = vec![in alloc;
        folder(alloc),
        profile(alloc),
        part,
        flag(alloc, "unused", unused),
        manifest(alloc),
        usage_format(alloc),
    ]?;
    Command::new(alloc, "usage")
        .about("Says which stored operations and fragments read a part of the schema")
        .after_help(AFTER_USAGE)
        .args(arguments)
}

/// Adds a subcommand to a command, unless memory was out for the subcommand.
fn with_subcommand<'a>(
    command: Command<'a>,
    subcommand: Result<Command<'a>, AllocError>,
) -> Result<Command<'a>, AllocError> {
    command.subcommand(subcommand?)
}

/// The grammar of the commands on a folder.
pub fn grammar<'a>(alloc: Global) -> Result<Command<'a>, AllocError> {
    let command = Command::new(alloc, "gqlreg").subcommand_required(true);
    let command = with_subcommand(command, check(alloc))?;
    let command = with_subcommand(command, push(alloc))?;
    with_subcommand(command, usage(alloc))
}
