//! The text of the path of a refusal.
ghost use Rattle.std.specs.Prelude.{◌≡◌, IfOk, OnOk, string_bytes};
ghost use Rattle.gql_coerce.specs.Paths as spec;

use crate::refusal::Segment;
use std::alloc::{AllocError, Global};

fn add_key(key: &str, text: &mut String) -> Result<(), AllocError>
    ensures { OnOk result (string_bytes text.new ≡ spec.with_key (string_bytes text.old) key.now) }
{
    if !text.is_empty() {
        text.push_str(".")?;
    }
    text.push_str(key)?;
    Ok(())
}

fn add_index(index: usize, text: &mut String) -> Result<(), AllocError>
    ensures { OnOk result (string_bytes text.new ≡ spec.with_index (string_bytes text.old) index) }
{
    let mut digits = itoa::Buffer::new();
    text.push_str("[")?;
    text.push_str(digits.format(index))?;
    text.push_str("]")?;
    Ok(())
}

fn add_segment(segment: &Segment, text: &mut String) -> Result<(), AllocError>
    ensures { OnOk result (string_bytes text.new
        ≡ spec.with_segment (string_bytes text.old) segment.now) }
{
    match segment {
        Segment::Key(key) => add_key(key.as_str(), text)?,
        Segment::Index(index) => add_index(*index, text)?,
    }
    Ok(())
}

/// The text of a path: a field by its name, after a point unless it comes first, and an item by its
/// index in brackets, as in `points[2].x`.
pub fn path_text(alloc: Global, path: &[Segment]) -> Result<String, AllocError>
    ensures { IfOk result (λ text. string_bytes text ≡ spec.path_text path.now) }
{
    let mut text = String::new(alloc);
    for segment in path {
        add_segment(segment, &mut text)?;
    }
    Ok(text)
}
