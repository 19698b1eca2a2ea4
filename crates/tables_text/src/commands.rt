//! What command lines ask for.
use gql_command::{Command, CommandFault, read_command};
use std::alloc::{AllocError, Global};
use table_rows::quoted;

fn words_in(alloc: Global, line: &str) -> Result<Vec<String>, AllocError> {
    let mut words = Vec::new(alloc);
    for word in line.split_whitespace() {
        words.push(String::from_str(alloc, word)?)?;
    }
    Ok(words)
}

/// What the words of a command line ask for, the program's name first.
pub fn command_answer(alloc: Global, line: &str) -> Option<String> {
    let words = words_in(alloc, line).ok()?;
    let answer = match read_command(alloc, words.as_slice()) {
        Ok(Command::Pipe) => "pipe",
        Ok(
            Command::Serve {
                port,
                connections,
                at_once,
            },
        ) => {
            return format!(in alloc; "serve {port} {connections} {at_once}").ok();
        }
        Err(CommandFault::Help(_)) => "help",
        Err(CommandFault::Version(_)) => "version",
        Err(CommandFault::Refused(_)) => "refused",
        Err(CommandFault::Memory) => "memory",
    };
    String::from_str(alloc, answer).ok()
}

/// The text with which the words of a command line are answered, as a string of JSON: that of help,
/// of the version or of a refusal.
pub fn command_text(alloc: Global, line: &str) -> Option<String> {
    let words = words_in(alloc, line).ok()?;
    match read_command(alloc, words.as_slice()) {
        Err(CommandFault::Help(text)) => quoted(alloc, text.as_str()).ok(),
        Err(CommandFault::Version(text)) => quoted(alloc, text.as_str()).ok(),
        Err(CommandFault::Refused(text)) => quoted(alloc, text.as_str()).ok(),
        Err(CommandFault::Memory) | Ok(_) => None,
    }
}
