//! Faults as the table writes them.
use gql_ast::{Fault, FilePlace, Shared};
use std::alloc::{AllocError, Global};
use table_rows::join;

/// A place as `file line:column`.
pub fn written_place(alloc: Global, place: &FilePlace) -> Result<String, AllocError> {
    let file = place.file.as_str();
    let line = place.place.line;
    let column = place.place.column;
    format!(in alloc; "{file} {line}:{column}")
}

/// A fault as its rule, what it is about, unless that is empty, and its places.
fn written_fault(alloc: Global, fault: &Fault) -> Result<String, AllocError> {
    let mut written = String::from_str(alloc, fault.rule.name())?;
    let about = fault.about.as_str();
    if !about.is_empty() {
        join(&mut written, " ", about)?;
    }
    let mut before = " at ";
    for place in fault.places.as_slice() {
        written.push_str(before)?;
        written.push_str(written_place(alloc, place)?.as_str())?;
        before = ", ";
    }
    Ok(written)
}

/// The faults, joined by semicolons, or `no faults`. Each is written from its copy, which has to be
/// the same.
pub fn written_faults(alloc: Global, faults: &[Shared<Fault>]) -> Result<String, AllocError> {
    if faults.is_empty() {
        return String::from_str(alloc, "no faults");
    }
    let mut written = String::new(alloc);
    let mut before = "";
    for fault in faults {
        written.push_str(before)?;
        let copy = fault.get().copy(alloc)?;
        written.push_str(written_fault(alloc, &copy)?.as_str())?;
        before = "; ";
    }
    Ok(written)
}
