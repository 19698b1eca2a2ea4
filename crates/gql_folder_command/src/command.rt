//! What the words of a command line ask for, if they are those of a command on a folder.

use crate::grammar::grammar;
use crate::options::{
    CheckOptions, PushOptions, UsageOptions, check_options, push_options, usage_options,
};
use clap::ArgMatches;
use clap::error::ErrorKind;
use std::alloc::{AllocError, Global};

/// A command on a folder.
#[derive(Debug, Drop)]
pub enum FolderCommand {
    Check(CheckOptions),
    Push(PushOptions),
    Usage(UsageOptions),
}

/// Why a command line gives no command on a folder, with the text to print.
#[derive(Debug, PartialEq, Eq, Drop)]
pub enum FolderCommandFault {
    /// Help was asked for.
    Help(String),
    /// The command line is refused.
    Refused(String),
    /// An allocation failed.
    Memory,
}

impl From<AllocError> for FolderCommandFault {
    fn from(_: AllocError) -> FolderCommandFault {
        FolderCommandFault::Memory
    }
}

/// Whether the words of a command line, the program's name first, are those of a command on a
/// folder.
pub fn is_folder_command(words: &[String]) -> bool {
    match words.get(1) {
        Some(word) => matches!(word.as_str(), "check" | "push" | "usage"),
        None => false,
    }
}

fn fault(alloc: Global, error: &clap::Error) -> FolderCommandFault {
    let Ok(text) = format!(in alloc; "{error}") else {
        return FolderCommandFault::Memory;
    };
    match error.kind() {
        ErrorKind::DisplayHelp => FolderCommandFault::Help(text),
        ErrorKind::OutOfMemory => FolderCommandFault::Memory,
        _ => FolderCommandFault::Refused(text),
    }
}

fn texts<'w>(alloc: Global, words: &'w [String]) -> Result<Vec<&'w str>, AllocError> {
    let mut texts = Vec::new(alloc);
    for word in words {
        texts.push(word.as_str())?;
    }
    Ok(texts)
}

/// The command of the words that clap found.
fn command_of(
    alloc: Global,
    matches: &ArgMatches<'_>,
) -> Result<FolderCommand, FolderCommandFault> {
    if let Some(matches) = matches.subcommand_matches("check") {
        return Ok(FolderCommand::Check(check_options(alloc, matches)?));
    }
    if let Some(matches) = matches.subcommand_matches("push") {
        return Ok(FolderCommand::Push(push_options(alloc, matches)?));
    }
    match matches.subcommand_matches("usage") {
        Some(matches) => Ok(FolderCommand::Usage(usage_options(alloc, matches)?)),
        None => Err(FolderCommandFault::Refused(String::new(alloc))),
    }
}

/// The command on a folder that the words of a command line ask for, the program's name first.
pub fn read_folder_command(
    alloc: Global,
    words: &[String],
) -> Result<FolderCommand, FolderCommandFault> {
    let texts = texts(alloc, words)?;
    let grammar = grammar(alloc)?;
    match grammar.try_get_matches_from(texts.as_slice()) {
        Ok(matches) => command_of(alloc, &matches),
        Err(error) => Err(fault(alloc, &error)),
    }
}
