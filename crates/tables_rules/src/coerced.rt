//! The results of the coercion of values, as the table writes them.
use gql_coerce::{CoerceFault, CoercedObject, CoercedValue, Refusal, path_text};
use gql_inputs::BadValue;
use std::alloc::{AllocError, Global};

/// A refusal as its number, and its path if it is not the whole input.
fn written_refusal(alloc: Global, refusal: &Refusal) -> Result<String, AllocError> {
    let number = refusal.reason.number();
    let path = refusal.path.as_slice();
    if path.is_empty() {
        format!(in alloc; "{number}")
    } else {
        let path = path_text(alloc, path)?;
        let path = path.as_str();
        format!(in alloc; "{number} at {path}")
    }
}

fn written_fault(alloc: Global, fault: &CoerceFault) -> Result<String, AllocError> {
    match fault {
        CoerceFault::Refused(refusal) => written_refusal(alloc, refusal),
        CoerceFault::Memory => String::from_str(alloc, "memory"),
    }
}

/// A value as JSON, or its refusal.
pub fn written_value(
    alloc: Global,
    coerced: &Result<CoercedValue, CoerceFault>,
) -> Result<String, AllocError> {
    match coerced {
        Ok(value) => value.get().to_string(alloc),
        Err(fault) => written_fault(alloc, fault),
    }
}

/// An object as JSON, or its refusal.
pub fn written_object(
    alloc: Global,
    coerced: &Result<CoercedObject, CoerceFault>,
) -> Result<String, AllocError> {
    match coerced {
        Ok(object) => object.copied(alloc)?.get().to_string(alloc),
        Err(fault) => written_fault(alloc, fault),
    }
}

/// A value as JSON, or `absent` if there is none, or its refusal.
pub fn written_option(
    alloc: Global,
    coerced: &Result<Option<CoercedValue>, CoerceFault>,
) -> Result<String, AllocError> {
    match coerced {
        Ok(Some(value)) => value.get().to_string(alloc),
        Ok(None) => String::from_str(alloc, "absent"),
        Err(fault) => written_fault(alloc, fault),
    }
}

/// The parts of a value that do not fit, each as its rule, what it is about, and its column; or
/// `fits`.
pub fn written_misfits(alloc: Global, misfits: &[BadValue]) -> Result<String, AllocError> {
    if misfits.is_empty() {
        return String::from_str(alloc, "fits");
    }
    let mut written = String::new(alloc);
    let mut before = "";
    for bad in misfits {
        let rule = bad.rule.name();
        let about = bad.about.as_str();
        let column = bad.place.column;
        let one = format!(in alloc; "{before}{rule} {about} {column}")?;
        written.push_str(one.as_str())?;
        before = "; ";
    }
    Ok(written)
}
