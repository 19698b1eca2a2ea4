//! Why the registry refuses a call.

ghost use Rattle.std.specs.Prelude.{◌≡◌};
ghost use Rattle.gql_registry.specs.Refusals as spec;
ghost use Rattle.gql_registry.specs.Refusals.{refusal_of};
ghost use Rattle.gql_registry.specs.declared.refusal.Refusal.TheVariants.{Memory};

use gql_ast::{Fault, Items, Shared};
use gql_grammar::{SyntaxFault, SyntaxRefusal};
use gql_text::Place;
use std::alloc::{AllocError, AllocFailed};
use std::fmt;
use thiserror::Error;

/// Why the registry refuses. Each has a number that users see. A refused call changes nothing.
#[derive(Drop, Error)]
pub enum Refusal {
    /// 201: the file is not a document of its kind; why, and where.
    #[error("syntax")]
    Syntax { number: SyntaxRefusal, place: Place },
    /// 202: the bytes are not UTF-8.
    #[error("body is not UTF-8")]
    NotText,
    /// 203: a file of more bytes than the profile takes.
    #[error("file is too long")]
    TooLong,
    /// 204: no file of that name.
    #[error("no such file")]
    NoFile,
    /// 205: a file more of its kind than the profile takes.
    #[error("too many files")]
    FilesFull,
    /// 206: the edit expects another revision than the present one, which `revision` is.
    #[error("stale revision")]
    Stale { revision: u64 },
    /// 207: the data is not a JSON object that the registry accepts.
    #[error("data is not accepted")]
    BadData,
    /// 208: no such operation, or none is named and there isn't exactly one.
    #[error("no such operation")]
    NoOperation,
    /// 209: the schema, the operation or a fragment that it reaches has these faults.
    #[error("operation is faulty")]
    Faulty { faults: Items<Shared<Fault>> },
    /// 210: the answer has more values than the profile allows.
    #[error("answer is too large")]
    TooLarge,
    /// 211: an allocation failed.
    #[error("out of memory")]
    Memory,
    /// 212: there is no revision after the present one.
    #[error("revisions are spent")]
    Spent,
    /// 213: the operation has no faults, but is a subscription.
    #[error("subscriptions are not run")]
    NotRun,
}

impl Refusal {
    ghost use Rattle.gql_registry.specs.Refusals.{number_of};

    /// The number of the refusal, from 201 to 213.
    pub fn number(&self) -> u16
        ensures { result ≡ number_of self.now }
    {
        match self {
            Refusal::Syntax { .. } => 201,
            Refusal::NotText => 202,
            Refusal::TooLong => 203,
            Refusal::NoFile => 204,
            Refusal::FilesFull => 205,
            Refusal::Stale { .. } => 206,
            Refusal::BadData => 207,
            Refusal::NoOperation => 208,
            Refusal::Faulty { .. } => 209,
            Refusal::TooLarge => 210,
            Refusal::Memory => 211,
            Refusal::Spent => 212,
            Refusal::NotRun => 213,
        }
    }
}

impl fmt::Debug for Refusal {
    fn fmt<W: fmt::Write>(&self, f: &mut fmt::Formatter<W>) -> fmt::Result {
        fmt::Display::fmt(self, f)
    }
}

impl From<AllocError> for Refusal {
    ghost from_gives = { λ _ e. e ≡ Memory };

    fn from(_: AllocError) -> Refusal {
        Refusal::Memory
    }
}

impl<T: Drop> From<AllocFailed<T>> for Refusal {
    ghost from_gives = { λ _ e. e ≡ Memory };

    fn from(_: AllocFailed<T>) -> Refusal {
        Refusal::Memory
    }
}

impl From<SyntaxFault> for Refusal {
    ghost use Rattle.gql_registry.specs.Refusals.{refusal_of};
    ghost use Rattle.std.specs.Prelude.{◌≡◌};

    ghost from_gives = { λ fault e. e ≡ refusal_of fault };

    fn from(fault: SyntaxFault) -> Refusal {
        match fault {
            SyntaxFault::At { number, place } => Refusal::Syntax { number, place },
            SyntaxFault::Memory => Refusal::Memory,
        }
    }
}

/// Why a text is not a file of its side, in words.
pub fn syntax_message(number: SyntaxRefusal) -> &'static str
    ensures { result.now ≡ spec.syntax_message number }
{
    match number {
        SyntaxRefusal::BadCharacter => "syntax: bad character",
        SyntaxRefusal::BadNumber => "syntax: bad number",
        SyntaxRefusal::UnfinishedText => "syntax: unfinished text",
        SyntaxRefusal::BadEscape => "syntax: bad escape",
        SyntaxRefusal::LoneSurrogate => "syntax: lone surrogate",
        SyntaxRefusal::TooLong => "syntax: too long",
        SyntaxRefusal::Unexpected => "syntax: unexpected token",
        SyntaxRefusal::TooDeep => "syntax: too deep",
    }
}
