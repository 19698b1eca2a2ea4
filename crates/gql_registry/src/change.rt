//! Edits: lists of changes.

use crate::refusal::Refusal;
use gql_ast::{FileName, FileSide};
use serde_json::Value;
use std::alloc::AllocError;

/// One change of an edit. An edit is a list of them: all are made, one after the other, or none.
pub enum Change<'b> {
    /// Bytes are put on a side as the file of a name, in place of any file of that name.
    Put {
        side: FileSide,
        name: FileName,
        bytes: &'b [u8],
    },
    /// The file of a name is removed from a side.
    Remove {
        side: FileSide,
        name: FileName,
    },
    /// Bytes are put as the data, in place of the data before.
    PutData {
        bytes: &'b [u8],
    },
    /// A value is put as the data, in place of the data before.
    SetData {
        value: &'b Value,
    },
}

impl Drop for Change<'_> {
    fn drop(self) {
        match self {
            Change::Put {
                side: _,
                name: _,
                bytes: _,
            } => {}
            Change::Remove { side: _, name: _ } => {}
            Change::PutData { bytes: _ } => {}
            Change::SetData { value: _ } => {}
        }
    }
}

/// Why an edit is refused, and at which of its changes. If another revision is expected or there is
/// no next one, the index is 0; if an allocation fails, it says nothing.
#[derive(Debug, Drop)]
pub struct EditRefusal {
    pub at: usize,
    pub refusal: Refusal,
}

impl From<AllocError> for EditRefusal {
    ghost use Rattle.std.specs.Prelude.{◌≡◌};
    ghost use Rattle.gql_registry.specs.declared.refusal.Refusal.TheVariants.{Memory};

    ghost from_gives = { λ _ e. e.refusal ≡ Memory };

    fn from(_: AllocError) -> EditRefusal {
        EditRefusal {
            at: 0,
            refusal: Refusal::Memory,
        }
    }
}

/// A refusal before the first change of an edit, or at it.
impl From<Refusal> for EditRefusal {
    ghost use Rattle.std.specs.Prelude.{◌≡◌};

    ghost from_gives = { λ r e. e ≡ record { at = 0; refusal = r } };

    fn from(refusal: Refusal) -> EditRefusal {
        EditRefusal { at: 0, refusal }
    }
}
