//! Texts that trees own, and names with their places.

ghost use Rattle.std.specs.Prelude.{◌≡◌, IfOk, Some, refl, bytes_eq};
ghost use Rattle.std.proofs.Common.{rules};
ghost use Rattle.std.specs.Ordering.{nat_cmp};
ghost use Rattle.std.specs.Hash as fed;
ghost use Rattle.std.specs.Cmp.{partial_equiv_from_equiv};
ghost use Rattle.std.specs.Cmp.Lexicographic.{slice_cmp, nat_list_eq_equiv, nat_list_cmp_total, texts_ties, texts_po};
ghost use Rattle.std.specs.Cmp.Rules.{hashing};

use crate::text_order::order;
use arrayvec::ArrayString;
use gql_text::Place;
use std::alloc::{AllocError, Global};
use std::cmp::Ordering;
use std::hash::{Hash, Hasher};
use std::marker::Model;

/// A text that a tree owns, which contracts see as the list of its bytes. A text of at most 24
/// bytes is held in place, so that it takes no memory of its own and its copy takes none either.
#[derive(Debug)]
pub struct Text {
    short: ArrayString<24>,
    /// The text, if it is longer; else empty.
    long: String,
}

impl Drop for Text {
    fn drop(self) {
        let Text { short: _, long: _ } = self;
    }
}

impl Model for Text {
    ghost use Rattle.std.specs.Prelude.{List, ℕ, string_bytes};
    ghost use Rattle.gql_ast.specs.Texts.{whole};

    ghost Value = { List ℕ };

    ghost view = { λ text. whole text.short.bytes (string_bytes text.long) };
}

impl Text {
    /// A copy of the text.
    pub fn from_str(alloc: Global, text: &str) -> Result<Text, AllocError>
        ensures { IfOk result (λ n. n ≡ text.now) }
    {
        let (short, long) = match ArrayString::try_from(text) {
            Ok(short) => (short, String::new(alloc)),
            Err(_) => (ArrayString::new(), String::from_str(alloc, text)?),
        };
        Ok(Text { short, long })
    }

    /// The text.
    pub fn as_str(&self) -> &str
        ensures { result.now ≡ self.now }
    {
        if self.long.is_empty() {
            self.short.as_str()
        } else {
            self.long.as_str()
        }
    }

    /// An equal text.
    pub fn copy(&self) -> Result<Text, AllocError>
        ensures { IfOk result (λ n. n ≡ self.now) }
    {
        Ok(Text {
            short: self.short,
            long: self.long.clone()?,
        })
    }
}

impl PartialEq for Text {
    ghost eq = { bytes_eq };

    ghost laws = { partial_equiv_from_equiv nat_list_eq_equiv };

    fn eq(&self, other: &Text) -> bool {
        self.as_str() == other.as_str()
    }
}

impl Eq for Text {
    ghost laws = { nat_list_eq_equiv };
}

impl PartialOrd for Text {
    ghost partial_cmp = { λ a b. Some (slice_cmp nat_cmp a b) };

    ghost laws = { texts_po };

    fn partial_cmp(&self, other: &Text) -> Option<Ordering> {
        Some(self.cmp(other))
    }
}

impl Ord for Text {
    ghost cmp = { slice_cmp nat_cmp };

    ghost total = { nat_list_cmp_total };

    ghost matches_partial_cmp = { λ a b. refl };

    ghost matches_eq = { texts_ties };

    fn cmp(&self, other: &Text) -> Ordering {
        order(self.as_str().as_bytes(), other.as_str().as_bytes())
    }
}

impl Hash for Text {
    ghost hash_input = { fed.str };

    ghost respects_eq = { Prim.search (hashing, rules) };

    fn hash<H: Hasher>(&self, state: &mut H) {
        self.as_str().hash(state);
    }
}

/// A name with its place in a file (GraphQL specification, 2.1.9).
#[derive(Debug)]
pub struct Name {
    pub place: Place,
    pub text: Text,
}

impl Drop for Name {
    fn drop(self) {
        let Name { place: _, text: _ } = self;
    }
}

impl Name {
    /// The name's text.
    pub fn as_str(&self) -> &str
        ensures { result.now ≡ self.now.text }
    {
        self.text.as_str()
    }

    /// The name's text, without its place.
    pub fn into_text(self) -> Text
        ensures { result ≡ self.text }
    {
        let Name { place: _, text } = self;
        text
    }

    /// An equal name, at the same place.
    pub fn copy(&self) -> Result<Name, AllocError>
        ensures { IfOk result (λ n. n ≡ self.now) }
    {
        Ok(Name {
            place: self.place,
            text: self.text.copy()?,
        })
    }
}
