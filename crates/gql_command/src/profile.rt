//! The option `--profile NAME`, and the profiles that have a name.
ghost use Rattle.std.specs.Prelude.{◌≡◌, ◌∷◌, List, IfOk};
ghost use Rattle.clap.specs.Walk.{Text, texts as texts_of};
ghost use Rattle.gql_command.specs.Options.{parts_of, with_found};
ghost use Rattle.gql_command.specs.Profiles as spec;

use gql_ast::Profile;
use std::alloc::{AllocError, Global};

/// The names of the profiles.
pub const PROFILES: [&str; 2] = ["whole-numbers", "october-2021"];

/// The option, whose name is the next word.
const OPTION: &[u8] = b"--profile";

/// The option, whose name is in the same word.
const OPTION_IS: &[u8] = b"--profile=";

/// The profile that these bytes name.
fn profile_of(name: &[u8]) -> Option<Profile>
    ensures { result ≡ spec.profile_named name.now }
{
    if name == b"whole-numbers".as_slice() {
        Some(Profile::whole_numbers())
    } else if name == b"october-2021".as_slice() {
        Some(Profile::october_2021())
    } else {
        None
    }
}

/// The profile of this name.
pub fn profile_named(name: &str) -> Option<Profile>
    ensures { result ≡ spec.profile_named name.now }
{
    profile_of(name.as_bytes())
}

/// The profile that an option names, if it names one, and the words after the option.
#[derive(Clone, Copy)]
struct Found<'a, 'w> {
    profile: Option<Profile>,
    words: &'a [&'w str],
}

/// The profile that the first of these words names.
fn named_apart<'a, 'w>(words: &'a [&'w str]) -> Found<'a, 'w>
    ensures { parts_of result ≡ spec.named_apart (texts_of words.now) }
{
    match words.split_first() {
        Some((name, others)) => Found {
            profile: profile_named(*name),
            words: others,
        },
        None => Found {
            profile: None,
            words,
        },
    }
}

/// What the option says, if this word begins it. These are the words after it.
#[tactic(auto, using(crate::proofs::Profiling::at_option, crate::proofs::Profiling::at_named, crate::proofs::Profiling::at_word))]
fn found_at<'a, 'w>(word: &'w str, others: &'a [&'w str]) -> Option<Found<'a, 'w>>
    ensures { (before : List Text) → spec.options before (word.now ∷ texts_of others.now)
        ≡ with_found before word.now (texts_of others.now) result }
{
    let bytes = word.as_bytes();
    if bytes == OPTION {
        return Some(named_apart(others));
    }
    if bytes.starts_with(OPTION_IS) {
        return Some(Found {
            profile: profile_of(&bytes[OPTION_IS.len()..]),
            words: others,
        });
    }
    None
}

/// The profile that the option among these words names. The words without the option are added to
/// the rest.
#[tactic(auto, using(crate::proofs::Profiling::found_first, crate::proofs::Profiling::word_first, crate::proofs::Profiling::no_word, crate::proofs::Profiling::shorter))]
fn take_option<'w>(
    words: &[&'w str],
    rest: &mut Vec<&'w str>,
) -> Result<Option<Profile>, AllocError>
    ensures { IfOk result (λ profile. (profile, texts_of rest.new.items)
        ≡ spec.options (texts_of rest.old.items) (texts_of words.now)) }
{
    let Some((word, others)) = words.split_first() else {
        return Ok(Some(Profile::whole_numbers()));
    };
    match found_at(*word, others) {
        Some(found) => {
            rest.extend_from_slice(found.words)?;
            Ok(found.profile)
        }
        None => {
            rest.push(*word)?;
            take_option(others, rest)
        }
    }
}

/// The words of a command line without the option `--profile`, and the profile that it names, if it
/// names one. Without the option that is `whole-numbers`.
#[derive(Drop)]
pub struct Parts<'w> {
    pub profile: Option<Profile>,
    pub rest: Vec<&'w str>,
}

/// Takes the option `--profile` out of the words of a command line, the program's name first. It is
/// looked for after the command.
#[tactic(auto, using(crate::proofs::Profiling::split_short, crate::proofs::Profiling::split_long))]
pub fn split<'w>(alloc: Global, words: &[&'w str]) -> Result<Parts<'w>, AllocError>
    ensures { IfOk result (λ s. (s.profile, texts_of s.rest.items)
        ≡ spec.split (texts_of words.now)) }
{
    let mut rest = Vec::new(alloc);
    if words.len() < 2 {
        rest.extend_from_slice(words)?;
        return Ok(Parts {
            profile: Some(Profile::whole_numbers()),
            rest,
        });
    }
    rest.extend_from_slice(&words[..2])?;
    let profile = take_option(&words[2..], &mut rest)?;
    Ok(Parts { profile, rest })
}
