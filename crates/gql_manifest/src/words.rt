//! What manifests are made into, in words.

use crate::files::FromManifests;
use crate::texts::push_all;
use std::alloc::{AllocError, Global};

/// How many paths are named at most.
const MAX_NAMED: usize = 6;

/// The end of the noun of a number of things.
fn ending(count: usize) -> &'static str {
    if count == 1 { "" } else { "s" }
}

/// How many operations and fragments manifests have, and the paths of the files that they are made
/// into (the first 6, and how many more), as one line without a line break at its end.
pub fn made_text(alloc: Global, made: &FromManifests) -> Result<String, AllocError> {
    let (operations, fragments) = (made.operations, made.fragments);
    let (ends, end) = (ending(operations), ending(fragments));
    let mut out = format!(in alloc;
        "manifests: {operations} operation{ends} and {fragments} fragment{end}"
    )?;
    for (at, one) in made.files.as_slice().iter().take(MAX_NAMED).enumerate() {
        let before = if at == 0 { ", as " } else { ", " };
        push_all(&mut out, &[before, one.file.path.as_str()])?;
    }
    let others = made.files.len().saturating_sub(MAX_NAMED);
    if others > 0 {
        let text = format!(in alloc; " and {others} more")?;
        out.push_str(text.as_str())?;
    }
    Ok(out)
}
