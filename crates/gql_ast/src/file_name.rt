//! The names of files.

ghost use Rattle.std.specs.Prelude.{◌≡◌, ◌↔◌, ◌&&◌, nat_lt, nat_le, length, IsTrue, IsSome, IfOk, IfSome, Some, refl, bytes_eq};
ghost use Rattle.std.specs.Ordering.{nat_cmp};
ghost use Rattle.std.specs.List.{list_all};
ghost use Rattle.std.specs.Cmp.{partial_equiv_from_equiv};
ghost use Rattle.std.specs.Cmp.Lexicographic.{slice_cmp, nat_list_eq_equiv, nat_list_cmp_total, texts_ties, texts_po};
ghost use Rattle.gql_ast.specs.FileNames.{is_file_name, is_file_name_byte};

use crate::shared::Shared;
use crate::text::Text;
use std::alloc::{AllocError, Global};
use std::cmp::Ordering;
use std::marker::Model;

/// The name of a file: letters, digits, `_`, `.` and `-`, at least one of them, and at most as many
/// as a profile takes. A copy shares the text, so that it costs no walk. Names are ordered by their
/// bytes. Contracts see the list of the bytes.
#[derive(Debug)]
pub struct FileName {
    text: Shared<Text>,
}

impl Drop for FileName {
    fn drop(self) {
        let FileName { text: _ } = self;
    }
}

impl Model for FileName {
    ghost use Rattle.std.specs.Prelude.{List, ℕ};

    ghost Value = { List ℕ };

    ghost view = { λ n. n.text };
}

fn is_name_byte(byte: u8) -> bool
    ensures { result ≡ is_file_name_byte byte }
{
    byte.is_ascii_alphanumeric() || byte == b'_' || byte == b'.' || byte == b'-'
}

fn has_name_length(text: &str, most: usize) -> bool
    ensures { result ≡ (nat_lt 0 (length text.now) && nat_le (length text.now) most) }
{
    !text.is_empty() && text.len() <= most
}

fn has_name_bytes(text: &str) -> bool
    ensures { result ≡ list_all is_file_name_byte text.now }
{
    text.bytes().all(is_name_byte)
}

impl FileName {
    /// The file name of this text, if the text is one where a name has at most so many bytes.
    pub fn read(alloc: Global, text: &str, most: usize) -> Result<Option<FileName>, AllocError>
        ensures name { IfOk result (λ name. IfSome name (λ n. n ≡ text.now)) }
        ensures exact { IfOk result (λ name. IsSome name ↔ IsTrue (is_file_name most text.now)) }
    {
        if !has_name_length(text, most) || !has_name_bytes(text) {
            return Ok(None);
        }
        let text = Text::from_str(alloc, text)?;
        Ok(Some(FileName {
            text: Shared::new(alloc, text)?,
        }))
    }

    /// The name's text.
    pub fn as_str(&self) -> &str
        ensures { result.now ≡ self.now }
    {
        self.text.get().as_str()
    }

    /// An equal name, which shares the text.
    pub fn copy(&self) -> Result<FileName, AllocError>
        ensures { IfOk result (λ n. n ≡ self.now) }
    {
        Ok(FileName {
            text: self.text.clone()?,
        })
    }
}

impl Clone for FileName {
    ghost is_clone = { λ name copy. copy ≡ name };

    fn clone(&self) -> Result<FileName, AllocError> {
        self.copy()
    }
}

impl PartialEq for FileName {
    ghost eq = { bytes_eq };

    ghost laws = { partial_equiv_from_equiv nat_list_eq_equiv };

    fn eq(&self, other: &FileName) -> bool {
        self.as_str() == other.as_str()
    }
}

impl Eq for FileName {
    ghost laws = { nat_list_eq_equiv };
}

impl PartialOrd for FileName {
    ghost partial_cmp = { λ a b. Some (slice_cmp nat_cmp a b) };

    ghost laws = { texts_po };

    fn partial_cmp(&self, other: &FileName) -> Option<Ordering> {
        Some(self.cmp(other))
    }
}

impl Ord for FileName {
    ghost cmp = { slice_cmp nat_cmp };

    ghost total = { nat_list_cmp_total };

    ghost matches_partial_cmp = { λ a b. refl };

    ghost matches_eq = { texts_ties };

    fn cmp(&self, other: &FileName) -> Ordering {
        self.as_str().cmp(other.as_str())
    }
}
