//! Which of some things have names that are among others.

ghost use Rattle.std.specs.Prelude.{◌≡◌, [], IfOk, map};
ghost use Rattle.gql_types.specs.NamePlaces.{ArePlaces};
ghost use Rattle.gql_types.specs.Names as spec;
ghost use Rattle.gql_types.specs.Marks.{with_mark};

use crate::name_places::Places;
use crate::named::{HasName, Named};
use gql_ast::Text;
use std::alloc::{AllocError, Global};

/// For each thing, that its name is not among the others: there are none.
fn no_marks<T: HasName>(alloc: Global, things: &[T]) -> Result<Vec<bool>, AllocError>
    ensures { IfOk result (λ marks. marks.items ≡ spec.are_among [] (map T.name things.now)) }
{
    let mut marks = Vec::with_capacity(alloc, things.len())?;
    for _thing in things {
        marks.push(false)?;
    }
    Ok(marks)
}

/// Marks the thing at a place, if there is one.
fn mark(place: Option<usize>, marks: &mut Vec<bool>)
    ensures { marks.new.items ≡ with_mark place marks.old.items }
{
    if let Some(place) = place {
        if place < marks.len() {
            marks[place] = true;
        }
    }
}

/// For each thing, whether its name is among these. Each of them is looked up among the things, which
/// have different names.
pub fn marked<T: HasName>(
    alloc: Global,
    things: &[T],
    places: &Places,
    names: &[Text],
) -> Result<Vec<bool>, AllocError>
    requires places { ArePlaces places.now (map T.name things.now) }
    requires once { spec.AreOnce (map T.name things.now) }
    ensures { IfOk result (λ marks. marks.items ≡ spec.are_among names.now (map T.name things.now)) }
{
    let mut marks = no_marks(alloc, things)?;
    for name in names {
        mark(places.place_of(things, name.as_str()), &mut marks);
    }
    Ok(marks)
}

/// For each thing, whether its name is among these. The name of each thing is looked up among them.
pub fn asked<T: HasName>(
    alloc: Global,
    things: &[T],
    names: &Named<Text>,
) -> Result<Vec<bool>, AllocError>
    ensures { IfOk result (λ marks. marks.items ≡ spec.are_among names.now (map T.name things.now)) }
{
    let mut marks = Vec::with_capacity(alloc, things.len())?;
    for thing in things {
        marks.push(names.get(thing.name()).is_some())?;
    }
    Ok(marks)
}
