//! The growths of edits, which do not follow what the edits have nothing to do with. The field that
//! the operation A asks for has a name that is not held in place, so that whoever looks at A takes
//! memory for each of its fields.
use crate::step::{Step, written};
use crate::tally::Tally;
use crate::tool::{growths, refuse_none};
use gql_registry::Registry;
use gql_verdict::Meter;
use std::alloc::Global;

/// How many fields the operation has that an edit has nothing to do with.
const FIELDS: u16 = 200;

/// Counts of the same edit differ by less.
const NEAR: u16 = 100;

/// What an edit gives, and how many growths it had.
#[derive(Drop)]
struct Counted {
    text: String,
    growths: u16,
}

/// An operation A with so many fields of different response names.
fn wide_operation(alloc: Global) -> Option<String> {
    let mut text = String::from_str(alloc, "put documents a query A {").ok()?;
    for n in 0..FIELDS {
        let number = n.saturating_add(1);
        let field = format!(in alloc;
            " a{number}: aFieldWhoseNameIsLongerThanTwentyFourBytes"
        ).ok()?;
        text.push_str(field.as_str()).ok()?;
    }
    text.push_str(" }").ok()?;
    Some(text)
}

fn make(alloc: Global, registry: &mut Registry, line: &str) -> Option<String> {
    let step = Step::read(alloc, line)?;
    let mut meter = Meter::new(alloc);
    let given = step.make(registry, &mut meter);
    written(alloc, &given, &meter)
}

/// Counts the growths of an edit of a registry with an operation A that a line puts.
fn growths_of(alloc: Global, operation: &str, edit: &str) -> Option<Counted> {
    let mut registry = Registry::new(alloc).ok()?;
    make(
        alloc,
        &mut registry,
        "put schema s type Query { x: Int y: Int aFieldWhoseNameIsLongerThanTwentyFourBytes: Int }",
    )?;
    make(alloc, &mut registry, operation)?;
    make(alloc, &mut registry, "put documents b query B { y }")?;
    let step = Step::read(alloc, edit)?;
    let mut meter = Meter::new(alloc);
    refuse_none(alloc);
    let given = step.make(&mut registry, &mut meter);
    let growths = growths(alloc);
    Some(Counted {
        text: written(alloc, &given, &meter)?,
        growths,
    })
}

/// Makes an edit beside a small and a wide operation A. Both give what is expected, by near as many
/// growths. Returns the two counts.
fn count_twice(alloc: Global, edit: &str, expected: &str, tally: &mut Tally) -> Option<(u16, u16)> {
    let small = growths_of(
        alloc,
        "put documents a query A { aFieldWhoseNameIsLongerThanTwentyFourBytes }",
        edit,
    )?;
    let wide = growths_of(alloc, wide_operation(alloc)?.as_str(), edit)?;
    if small.text.as_str() != expected || wide.text.as_str() != expected {
        tally.differ(edit, 0, wide.text.as_str()).ok()?;
    }
    if small.growths.abs_diff(wide.growths) >= NEAR {
        tally
            .differ(edit, wide.growths, "the growths follow the fields of A")
            .ok()?;
    }
    Some((small.growths, wide.growths))
}

/// The growths of two edits, each beside an operation A of one field and of many, which the edits
/// have nothing to do with: what they say, as a text.
pub fn no_hidden_work(alloc: Global, tally: &mut Tally) -> Option<String> {
    let (small, wide) = count_twice(
        alloc,
        "put schema t type Other { z: Int }",
        "revision 4, faults 0",
        tally,
    )?;
    let (few, many) = count_twice(
        alloc,
        "put documents b query B { x }",
        "revision 4, faults 0, b 0",
        tally,
    )?;
    format!(in alloc; "schema t {small} and {wide}, document b {few} and {many}").ok()
}
