//! `gqlreg check` checks the files of a folder, `gqlreg usage` says who reads a part of its schema,
//! and `gqlreg push` puts the files into a registry. `gqlreg pipe` answers the requests of standard
//! input on standard output, `gqlreg serve` those of connections.
#![tactic(auto)]

mod push;

ghost use Rattle.std.specs.Prelude.{◌≡◌, ◌≤◌, None};
ghost use Rattle.gql_command.specs.CommandLine.{HasRanges};
ghost use Rattle.gql_http.specs.Hubs.{rests_of};
ghost use Rattle.gql_server.specs.Together.{AreClosed};

use crate::push::run_push;
use gql_ast::Profile;
use gql_command::{Command, CommandFault, ProfiledCommand, read_profiled_command};
use gql_folder_check::{run_check, run_usage};
use gql_folder_command::{
    FolderCommand, FolderCommandFault, is_folder_command, read_folder_command,
};
use gql_http::{Hub, PipeFault, pipe, status_of};
use gql_registry::Registry;
use gql_server::{MioNetwork, NetListener, ServeFault, serve_on, serve_together, status_of_serve};
use gql_wire::DevicePeer;
use std::mem::forget;
use std::net::{Ipv4Addr, SocketAddr};
use std::process::ExitCode;
use std::{env, io, net};

/// The words of the command line, the program's name first.
fn words(rt: &HostRuntime) -> io::Result<Vec<String>> {
    let mut words = Vec::new(rt.alloc());
    for word in env::args(rt)? {
        words.push(word)?;
    }
    Ok(words)
}

/// Answers the requests of standard input on standard output, by a registry of this profile.
fn run_pipe(rt: &HostRuntime, profile: Profile) -> u8 {
    let Ok(registry) = Registry::with(rt.alloc(), profile) else {
        return status_of(&Err(PipeFault::Memory));
    };
    let mut hub = Hub::new(rt.alloc(), registry);
    let mut peer = DevicePeer::new(rt.stdin(), rt.stdout());
    let status = status_of(&pipe(&mut hub, &mut peer));
    // The process ends, and its memory goes to the system at once: nothing is freed piece by piece.
    forget(hub);
    status
}

/// Reports that connections are accepted from now on, and returns whether that succeeded.
fn report_listening(rt: &HostRuntime) -> bool {
    rt.print("listening\n").is_ok()
}

/// Prints that the system does not let the program listen to a port of 127.0.0.1, and why.
fn report_refused(rt: &HostRuntime, port: u16, error: &io::Error) -> ServeFault {
    let reason = error.kind();
    let _ = match format!(in rt.alloc();
        "port {port} of 127.0.0.1 cannot be listened to: {reason}"
    ) {
        Ok(text) => rt.eprintln(text),
        Err(_) => rt.eprintln("the port cannot be listened to"),
    };
    ServeFault::ListenFailed
}

/// A port of 127.0.0.1.
fn local(port: u16) -> SocketAddr {
    SocketAddr::from((Ipv4Addr::LOCALHOST, port))
}

/// Serves this many connections to a port of 127.0.0.1, one after the other.
fn serve_in_turn(
    rt: &HostRuntime,
    hub: &mut Hub,
    port: u16,
    connections: u32,
) -> Result<(), ServeFault>
    requires { rests_of hub.old 0 ≡ None }
{
    let listener = match net::TcpListener::bind(rt, local(port)) {
        Ok(listener) => listener,
        Err(error) => return Err(report_refused(rt, port, &error)),
    };
    if !report_listening(rt) {
        return Err(ServeFault::ReportFailed);
    }
    serve_on(&mut NetListener::new(listener), hub, connections)
}

/// Serves this many connections to a port of 127.0.0.1, many at one time.
fn serve_at_once(
    rt: &HostRuntime,
    hub: &mut Hub,
    port: u16,
    connections: u32,
    at_once: u8,
) -> Result<(), ServeFault>
    requires closed { AreClosed at_once hub.old }
    requires most { at_once ≤ 16 }
{
    let listener = match mio::net::TcpListener::bind(rt, local(port)) {
        Ok(listener) => listener,
        Err(error) => return Err(report_refused(rt, port, &error)),
    };
    if !report_listening(rt) {
        return Err(ServeFault::ReportFailed);
    }
    let mut network = match MioNetwork::new(rt, rt.alloc(), listener) {
        Ok(network) => network,
        Err(fault) => return Err(fault),
    };
    serve_together(rt.alloc(), &mut network, hub, connections, at_once)
}

/// Answers the requests of this many connections to a port of 127.0.0.1, so many at one time, by a
/// registry of this profile.
fn run_serve(rt: &HostRuntime, profile: Profile, port: u16, connections: u32, at_once: u8) -> u8
    requires { at_once ≤ 16 }
{
    let Ok(registry) = Registry::with(rt.alloc(), profile) else {
        return status_of_serve(&Err(ServeFault::Memory));
    };
    let mut hub = Hub::new(rt.alloc(), registry);
    let served = if at_once == 1 {
        serve_in_turn(rt, &mut hub, port, connections)
    } else {
        serve_at_once(rt, &mut hub, port, connections, at_once)
    };
    forget(hub);
    status_of_serve(&served)
}

/// Prints a text that was asked for, and returns the status.
fn print_text(rt: &HostRuntime, text: String) -> u8 {
    match rt.print(text) {
        Ok(()) => 0,
        Err(_) => 1,
    }
}

/// Prints why no command is run, and returns the status.
fn report_fault(rt: &HostRuntime, fault: CommandFault) -> u8 {
    match fault {
        CommandFault::Help(text) | CommandFault::Version(text) => print_text(rt, text),
        CommandFault::Refused(text) => {
            let _ = rt.eprintln(text);
            let _ = rt.eprintln("Commands on folders: check, usage, push");
            2
        }
        CommandFault::Memory => 4,
    }
}

/// Runs a command on a folder, and returns the status.
fn run_on_folder(rt: &HostRuntime, words: &[String]) -> u8 {
    match read_folder_command(rt.alloc(), words) {
        Ok(FolderCommand::Check(options)) => run_check(rt, &options),
        Ok(FolderCommand::Push(options)) => run_push(rt, &options),
        Ok(FolderCommand::Usage(options)) => run_usage(rt, &options),
        Err(FolderCommandFault::Help(text)) => print_text(rt, text),
        Err(FolderCommandFault::Refused(text)) => {
            let _ = rt.eprintln(text);
            2
        }
        Err(FolderCommandFault::Memory) => 4,
    }
}

/// The status if the command line cannot be read: 4 if an allocation failed, and 2 with a text for
/// words that are not UTF-8.
fn report_unread(rt: &HostRuntime, error: &io::Error) -> u8 {
    match error.kind() {
        io::ErrorKind::OutOfMemory => 4,
        _ => {
            let _ = rt.eprintln("error: a word of the command line is not UTF-8");
            2
        }
    }
}

/// Runs a command of a registry of this profile, and returns the status.
fn run_command(rt: &HostRuntime, profile: Profile, command: Command) -> u8
    requires { HasRanges command }
{
    match command {
        Command::Pipe => run_pipe(rt, profile),
        Command::Serve {
            port,
            connections,
            at_once,
        } => run_serve(rt, profile, port, connections, at_once),
    }
}

/// Status 0: done; 1: a read, a write or the network failed, or there were too many reads; 2: the
/// command line is refused; 3: the input ended within a request; 4: an allocation failed.
fn main(rt: HostRuntime) -> ExitCode {
    let words = match words(&rt) {
        Ok(words) => words,
        Err(error) => return ExitCode::from(report_unread(&rt, &error)),
    };
    if is_folder_command(words.as_slice()) {
        return ExitCode::from(run_on_folder(&rt, words.as_slice()));
    }
    ExitCode::from(match read_profiled_command(rt.alloc(), words.as_slice()) {
        Ok(ProfiledCommand { command, profile }) => run_command(&rt, profile, command),
        Err(fault) => report_fault(&rt, fault),
    })
}
