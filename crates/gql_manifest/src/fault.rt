//! Why manifests are refused.

use crate::origin::Origin;
use crate::texts::text_from;
use std::alloc::{AllocError, AllocFailed, Global};
use thiserror::Error;

/// Why manifests are refused.
#[derive(Debug, Drop, Error)]
pub enum ManifestFault {
    /// The file at this path is not JSON, or not UTF-8.
    #[error("not JSON")]
    NotJson {
        path: String,
    },
    /// The JSON at this path is of neither form.
    #[error("no manifest")]
    NoManifest {
        path: String,
    },
    /// The text of an operation is refused, at a line and a column of it, with this number.
    #[error("a text is refused")]
    Refused {
        at: Origin,
        line: usize,
        column: usize,
        number: u16,
    },
    /// A text has an operation without a name.
    #[error("an operation has no name")]
    Unnamed {
        at: Origin,
    },
    /// A text has a definition that is neither an operation nor a fragment.
    #[error("a definition is not executable")]
    NotExecutable {
        at: Origin,
    },
    /// Two operations have one name.
    #[error("two operations have one name")]
    Twice {
        name: String,
        first: Origin,
        at: Origin,
    },
    /// Two fragments of one name differ.
    #[error("two fragments of one name differ")]
    Differ {
        name: String,
        first: Origin,
        at: Origin,
    },
    /// A file of the folder, at this path, has the name of one that is made, at the path `made`,
    /// from what `source` says.
    #[error("a file has the name of one that is made")]
    Clash {
        path: String,
        made: String,
        source: String,
    },
    /// An allocation failed.
    #[error("out of memory")]
    Memory,
}

impl From<AllocError> for ManifestFault {
    ghost use Rattle.std.specs.Prelude.{◌≡◌};
    ghost use Rattle.gql_manifest.specs.declared.fault.ManifestFault.TheVariants.{Memory};

    ghost from_gives = { λ _ e. e ≡ Memory };

    fn from(_: AllocError) -> ManifestFault {
        ManifestFault::Memory
    }
}

impl<T: Drop> From<AllocFailed<T>> for ManifestFault {
    ghost use Rattle.std.specs.Prelude.{◌≡◌};
    ghost use Rattle.gql_manifest.specs.declared.fault.ManifestFault.TheVariants.{Memory};

    ghost from_gives = { λ _ e. e ≡ Memory };

    fn from(_: AllocFailed<T>) -> ManifestFault {
        ManifestFault::Memory
    }
}

/// Why the text of an operation is refused, in words.
fn refused_text(
    alloc: Global,
    at: &Origin,
    line: usize,
    column: usize,
    number: u16,
) -> Result<String, AllocError> {
    let (path, id) = (at.path.as_str(), at.id.as_str());
    format!(in alloc;
        "{path}: operation {id}, line {line}, column {column}: not accepted ({number})"
    )
}

/// An operation that has something of the same name as an earlier one, in words. `before` is what
/// comes before the name, and `after` what comes after it.
fn pair_text(
    alloc: Global,
    at: &Origin,
    before: &str,
    name: &str,
    after: &str,
    first: &Origin,
) -> Result<String, AllocError> {
    let (path, id) = (at.path.as_str(), at.id.as_str());
    let (first_path, first_id) = (first.path.as_str(), first.id.as_str());
    text_from(
        alloc,
        &[
            path,
            ": operation ",
            id,
            before,
            name,
            after,
            "operation ",
            first_id,
            " of ",
            first_path,
        ],
    )
}

/// An operation and what is wrong with it, in words.
fn text_of(alloc: Global, at: &Origin, reason: &str) -> Result<String, AllocError> {
    let (path, id) = (at.path.as_str(), at.id.as_str());
    text_from(alloc, &[path, ": operation ", id, " ", reason])
}

/// Why manifests are refused, in words, without a line break at the end.
pub fn fault_text(alloc: Global, fault: &ManifestFault) -> Result<String, AllocError> {
    match fault {
        ManifestFault::NotJson { path } => text_from(alloc, &[path.as_str(), " is not JSON"]),
        ManifestFault::NoManifest { path } => text_from(
            alloc,
            &[
                path.as_str(),
                " is no manifest: it has neither `operations` nor an object of texts",
            ],
        ),
        ManifestFault::Refused {
            at,
            line,
            column,
            number,
        } => refused_text(alloc, at, *line, *column, *number),
        ManifestFault::Unnamed { at } => text_of(alloc, at, "has no name"),
        ManifestFault::NotExecutable { at } => text_of(
            alloc,
            at,
            "has a definition that is neither an operation nor a fragment",
        ),
        ManifestFault::Twice { name, first, at } => {
            pair_text(alloc, at, " has the name ", name.as_str(), ", as ", first)
        }
        ManifestFault::Differ { name, first, at } => pair_text(
            alloc,
            at,
            ": fragment ",
            name.as_str(),
            " differs from that of ",
            first,
        ),
        ManifestFault::Clash { path, made, source } => text_from(
            alloc,
            &[
                path.as_str(),
                " has the name of ",
                made.as_str(),
                ", which is made of ",
                source.as_str(),
            ],
        ),
        ManifestFault::Memory => String::from_str(alloc, "out of memory"),
    }
}
