//! Why a folder is not checked.

ghost use Rattle.std.specs.Prelude.{◌≡◌};
ghost use Rattle.gql_check.specs.Faults as spec;
ghost use Rattle.gql_check.specs.Faults.{IsFileFault};

use gql_ast::FileSide;
use gql_folder::FolderFault;
use gql_registry::{Refusal, syntax_message};
use gql_text::Place;
use std::alloc::{AllocError, AllocFailed};
use thiserror::Error;

/// A file that is refused: its index among those given, its place if it has one, the number of the
/// refusal, and the reason in words.
#[derive(Debug, Drop)]
pub struct FileFault {
    pub file: usize,
    pub place: Option<Place>,
    pub number: u16,
    pub reason: &'static str,
}

/// Why a folder is not checked.
#[derive(Debug, Drop, Error)]
pub enum CheckFault {
    /// No file of the folder is one of a registry.
    #[error("no files")]
    Empty,
    /// There are more files of a side than there may be.
    #[error("too many files")]
    TooMany { side: FileSide },
    /// The files at these two indices have one name in a registry.
    #[error("two files have one name")]
    Twice { first: usize, at: usize },
    /// The file at this index has a path that gives no name of a registry.
    #[error("a file has a name that is not accepted")]
    Misnamed { at: usize },
    /// Files are refused: at least one, in the order in which files are put.
    #[error("a file is refused")]
    Refused(Vec<FileFault>),
    /// An allocation failed.
    #[error("out of memory")]
    Memory,
}

impl From<AllocError> for CheckFault {
    ghost use Rattle.std.specs.Prelude.{◌≡◌};
    ghost use Rattle.gql_check.specs.declared.fault.CheckFault.TheVariants.{Memory};

    ghost from_gives = { λ _ e. e ≡ Memory };

    fn from(_: AllocError) -> CheckFault {
        CheckFault::Memory
    }
}

impl<T: Drop> From<AllocFailed<T>> for CheckFault {
    ghost use Rattle.std.specs.Prelude.{◌≡◌};
    ghost use Rattle.gql_check.specs.declared.fault.CheckFault.TheVariants.{Memory};

    ghost from_gives = { λ _ e. e ≡ Memory };

    fn from(_: AllocFailed<T>) -> CheckFault {
        CheckFault::Memory
    }
}

impl From<FolderFault> for CheckFault {
    ghost use Rattle.std.specs.Prelude.{◌≡◌};
    ghost use Rattle.gql_check.specs.Faults.{of_folder};

    ghost from_gives = { λ fault e. e ≡ of_folder fault };

    fn from(fault: FolderFault) -> CheckFault {
        match fault {
            FolderFault::Misnamed { at } => CheckFault::Misnamed { at },
            FolderFault::Twice { first, at } => CheckFault::Twice { first, at },
            FolderFault::TooMany { side } => CheckFault::TooMany { side },
            FolderFault::Memory => CheckFault::Memory,
        }
    }
}

/// The place of a refusal in its file, if it has one.
fn place_in(refusal: &Refusal) -> Option<Place>
    ensures { result ≡ spec.place_in refusal.now }
{
    match refusal {
        Refusal::Syntax { number: _, place } => Some(*place),
        _ => None,
    }
}

/// Why a file is refused, in words.
fn reason_of(refusal: &Refusal) -> &'static str
    ensures { result.now ≡ spec.reason_of refusal.now }
{
    match refusal {
        Refusal::Syntax { number, place: _ } => syntax_message(*number),
        Refusal::NotText => "the file is not UTF-8",
        Refusal::TooLong => "the file has more bytes than its profile takes",
        Refusal::FilesFull => "there are more files than its profile takes",
        Refusal::BadData => "data is not accepted",
        Refusal::Spent => "revisions are spent",
        _ => "the file is refused",
    }
}

/// The refusal of the file at an index, in words.
pub fn file_fault(file: usize, refusal: &Refusal) -> FileFault
    ensures { IsFileFault file refusal.now result }
{
    FileFault {
        file,
        place: place_in(refusal),
        number: refusal.number(),
        reason: reason_of(refusal),
    }
}
