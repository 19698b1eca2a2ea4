//! A fault of a subscription at its root.
ghost use Rattle.std.specs.Prelude.{◌≡◌, ◌++◌};
ghost use Rattle.std.specs.Hash as fed;
ghost use Rattle.std.specs.Cmp.{decided, partial_equiv_from_equiv};
ghost use Rattle.gql_single_root.specs.RootFaults as spec;
ghost use Rattle.gql_single_root.specs.RootFaults.{is_fault, is_fault_decides, same_hash};

use gql_ast::{FileName, Text};
use gql_text::Place;
use std::hash::{Hash, Hasher};

/// A fault by V30: its place in a document file, and the text that it is about. The subscription
/// owns it, also where the place is in a fragment of another file.
#[derive(Debug)]
pub struct RootFault {
    pub file: FileName,
    pub place: Place,
    pub about: Text,
}

impl Drop for RootFault {
    fn drop(self) {
        let RootFault {
            file: _,
            place: _,
            about: _,
        } = self;
    }
}

/// Whether two places are the same.
fn is_same_place(place: Place, other: Place) -> bool
    ensures { result ≡ spec.is_place place other }
{
    place.line == other.line && place.column == other.column && place.offset == other.offset
}

impl PartialEq for RootFault {
    ghost eq = { is_fault };

    ghost laws = { partial_equiv_from_equiv (decided is_fault is_fault_decides) };

    fn eq(&self, other: &RootFault) -> bool {
        self.file == other.file
            && is_same_place(self.place, other.place)
            && self.about == other.about
    }
}

impl Eq for RootFault {
    ghost laws = { decided is_fault is_fault_decides };
}

impl Hash for RootFault {
    ghost hash_input = { λ x. fed.str x.file ++ fed.usize x.place.offset };

    ghost respects_eq = { same_hash };

    fn hash<H: Hasher>(&self, state: &mut H) {
        self.file.as_str().hash(state);
        state.write_usize(self.place.offset);
    }
}
