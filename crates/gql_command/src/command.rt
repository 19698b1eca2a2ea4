//! The commands of the program, and which one the words of a command line ask for.
ghost use Rattle.std.specs.Prelude.{◌≡◌, IfOk};
ghost use Rattle.clap.specs.Walk.{texts as texts_of};
ghost use Rattle.clap.specs.Words.{kind_of};
ghost use Rattle.gql_command.specs.CommandLine.{Answers, Asks, GivesOrMemory, HasHelpFlag};
ghost use Rattle.gql_command.specs.CommandLine.{HasRanges, HasVersionFlag, HelpOrMemory};
ghost use Rattle.gql_command.specs.CommandLine.{VersionOrMemory, word_texts};
ghost use Rattle.gql_command.specs.Grammar.{FollowsGrammar, IsAnswerTo, IsRefusal};
ghost use Rattle.gql_command.specs.Profiled.{AnswersInProfile, GivesInProfile, IsJoined};

use crate::grammar::grammar;
use crate::profile::split;
use crate::serve::serve;
use clap::error::ErrorKind;
use gql_ast::Profile;
use std::alloc::{AllocError, Global};

/// What a command line asks for.
#[derive(Clone, Copy, Debug, PartialEq, Eq)]
pub enum Command {
    /// Answer the requests of standard input on standard output.
    Pipe,
    /// Answer requests over connections to this port of 127.0.0.1, so many at one time, and end
    /// after this number of connections.
    Serve {
        /// 1 to 65,535.
        port: u16,
        /// 1 to 1,000,000.
        connections: u32,
        /// 1 to 16.
        at_once: u8,
    },
}

/// Why a command line gives no command, with the text to print.
#[derive(Debug, PartialEq, Eq, Drop)]
pub enum CommandFault {
    /// Help was asked for.
    Help(String),
    /// The version was asked for.
    Version(String),
    /// The command line is refused.
    Refused(String),
    /// An allocation failed.
    Memory,
}

fn fault(alloc: Global, error: &clap::Error) -> CommandFault
    ensures { IsAnswerTo (kind_of error.now) result }
{
    let Ok(text) = format!(in alloc; "{error}") else {
        return CommandFault::Memory;
    };
    match error.kind() {
        ErrorKind::DisplayHelp => CommandFault::Help(text),
        ErrorKind::DisplayVersion => CommandFault::Version(text),
        ErrorKind::OutOfMemory => CommandFault::Memory,
        _ => CommandFault::Refused(text),
    }
}

fn read_texts(alloc: Global, words: &[&str]) -> Result<Command, CommandFault>
    ensures gives { (command : Command) → Asks command (texts_of words.now)
        → GivesOrMemory command result }
    ensures ranges { IfOk result HasRanges }
    ensures help { HasHelpFlag (texts_of words.now) → HelpOrMemory result }
    ensures version { HasVersionFlag (texts_of words.now) → VersionOrMemory result }
    ensures plain { Answers (texts_of words.now) result }
    ensures grammar { FollowsGrammar (texts_of words.now) result }
{
    let Ok(grammar) = grammar(alloc) else {
        return Err(CommandFault::Memory);
    };
    match grammar.try_get_matches_from(words) {
        Ok(matches) => match matches.subcommand_matches("serve") {
            Some(options) => serve(alloc, options),
            None => Ok(Command::Pipe),
        },
        Err(error) => Err(fault(alloc, &error)),
    }
}

fn texts<'w>(alloc: Global, words: &'w [String]) -> Result<Vec<&'w str>, AllocError>
    ensures { IfOk result (λ t. texts_of t.items ≡ word_texts words.now) }
{
    let mut texts = Vec::new(alloc);
    for word in words {
        texts.push(word.as_str())?;
    }
    Ok(texts)
}

/// What the words of a command line ask for, the program's name first.
pub fn read_command(alloc: Global, words: &[String]) -> Result<Command, CommandFault>
    ensures gives { (command : Command) → Asks command (word_texts words.now)
        → GivesOrMemory command result }
    ensures ranges { IfOk result HasRanges }
    ensures help { HasHelpFlag (word_texts words.now) → HelpOrMemory result }
    ensures version { HasVersionFlag (word_texts words.now) → VersionOrMemory result }
    ensures plain { Answers (word_texts words.now) result }
    ensures grammar { FollowsGrammar (word_texts words.now) result }
{
    let Ok(texts) = texts(alloc, words) else {
        return Err(CommandFault::Memory);
    };
    read_texts(alloc, texts.as_slice())
}

/// A command, and the profile of its registry.
#[derive(Clone, Copy, Debug, PartialEq, Eq)]
pub struct ProfiledCommand {
    pub command: Command,
    pub profile: Profile,
}

fn no_profile(alloc: Global) -> CommandFault
    ensures { IsRefusal result }
{
    let text = "error: a profile is `whole-numbers` or `october-2021`\n";
    match String::from_str(alloc, text) {
        Ok(text) => CommandFault::Refused(text),
        Err(_) => CommandFault::Memory,
    }
}

/// A command, or why there is none, and the profile that is named, if one is.
fn in_profile(
    alloc: Global,
    command: Result<Command, CommandFault>,
    profile: Option<Profile>,
) -> Result<ProfiledCommand, CommandFault>
    ensures { IsJoined command profile result }
{
    match command {
        Ok(command) => match profile {
            Some(profile) => Ok(ProfiledCommand { command, profile }),
            None => Err(no_profile(alloc)),
        },
        Err(fault) => Err(fault),
    }
}

/// What the words of a command line ask for, the program's name first: the command of the words
/// without `--profile NAME`, and the profile of that name.
pub fn read_profiled_command(
    alloc: Global,
    words: &[String],
) -> Result<ProfiledCommand, CommandFault>
    ensures gives { (c : ProfiledCommand) → GivesInProfile (word_texts words.now) c result }
    ensures ranges { IfOk result (λ c. HasRanges c.command) }
    ensures plain { AnswersInProfile (word_texts words.now) result }
{
    let Ok(texts) = texts(alloc, words) else {
        return Err(CommandFault::Memory);
    };
    let Ok(parts) = split(alloc, texts.as_slice()) else {
        return Err(CommandFault::Memory);
    };
    let command = read_texts(alloc, parts.rest.as_slice());
    in_profile(alloc, command, parts.profile)
}
