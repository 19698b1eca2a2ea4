//! Faults as texts.
use gql_ast::{Fault, FilePlace, Shared};
use std::alloc::{AllocError, Global};

/// Adds a place, after a word.
fn add_place(
    alloc: Global,
    word: &str,
    place: &FilePlace,
    text: &mut String,
) -> Result<(), AllocError> {
    let file = place.file.as_str();
    let line = place.place.line;
    let column = place.place.column;
    let side = match place.side {
        gql_ast::FileSide::Schema => "schema",
        gql_ast::FileSide::Documents => "documents",
    };
    text.push_str(format!(in alloc; " {word} {side}/{file} {line}:{column}")?.as_str())
}

/// Adds a fault: its rule, what it is about, its places and its owner.
fn add_fault(alloc: Global, fault: &Fault, text: &mut String) -> Result<(), AllocError> {
    text.push_str(fault.rule.name())?;
    text.push_str(" ")?;
    text.push_str(fault.about.as_str())?;
    for place in fault.places.as_slice() {
        add_place(alloc, "at", place, text)?;
    }
    if let Some(owner) = &fault.owner {
        add_place(alloc, "owner", owner, text)?;
    }
    text.push_str("; ")
}

/// Adds the faults of a list.
pub fn add_faults(
    alloc: Global,
    faults: &[Shared<Fault>],
    text: &mut String,
) -> Result<(), AllocError> {
    for fault in faults {
        add_fault(alloc, fault.get(), text)?;
    }
    Ok(())
}
