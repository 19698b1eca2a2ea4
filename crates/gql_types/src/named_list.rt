//! Lists of things that have names, with a look-up of the first of a name.

ghost use Rattle.std.specs.Prelude.{◌≡◌, IfNone, IfOk, IfSome, IsTrue, Some, find, map, bytes_eq, slice_get};
ghost use Rattle.std.specs.Option.{option_copied};
ghost use Rattle.std.specs.List.{position_from};
ghost use Rattle.gql_types.specs.NamePlaces.{ArePlaces};
ghost use Rattle.gql_types.specs.Names.{AreOnce, are_among};
ghost use Rattle.gql_types.specs.Prints.{HaveOwnPrints, print_of};

use crate::among::{asked, marked};
use crate::name_places::Places;
use crate::named::{HasName, Named};
use crate::same_name::is_same_name;
use gql_ast::{Shared, Text};
use std::alloc::{AllocError, Global};
use std::marker::Model;

/// How many things are compared one by one at most. Of more, it is kept where each name is.
const FEW: usize = 16;

/// Things in their order, with a look-up of the first of a name. Contracts see the list of the
/// things.
pub struct NamedList<T: HasName> {
    things: Vec<T>,
    /// Where the names are; none for few things. Lists of the same names share it.
    places: Option<Shared<Places>>,
}

impl<T: HasName + Drop> Drop for NamedList<T> {
    fn drop(self) {
        let NamedList {
            things: _,
            places: _,
        } = self;
    }
}

impl<T: HasName> Model for NamedList<T> {
    ghost use Rattle.std.specs.Prelude.{List, IfSome, map};
    ghost use Rattle.std.specs.Coded.{coded_list};
    ghost use Rattle.gql_types.specs.NamePlaces.{ArePlaces};

    ghost Value = { List T };

    ghost coded = { coded_list T.code };

    ghost view = { λ n. n.things.items };

    ghost invariant = { λ n. IfSome n.places (λ places.
        ArePlaces places (map T.name n.things.items)) };
}

/// Whether a thing has the name of another.
fn has_same_name<T: HasName, U: HasName>(thing: &T, other: &U) -> bool
    ensures { IsTrue result → T.name thing.now ≡ U.name other.now }
{
    is_same_name(thing.name(), other.name())
}

/// Whether things have the names of others, in the same order.
pub fn have_same_names<T: HasName, U: HasName>(things: &[T], others: &[U]) -> bool
    ensures { IsTrue result → map T.name things.now ≡ map U.name others.now }
{
    if things.len() != others.len() {
        return false;
    }
    for i in 0..things.len() {
        if !has_same_name(&things[i], &others[i]) {
            return false;
        }
    }
    true
}

/// The first of that name, each compared.
fn first_named<'a, T: HasName>(things: &'a [T], name: &str) -> Option<&'a T>
    ensures { option_copied result ≡ find (λ x. bytes_eq name.now (T.name x)) things.now }
{
    for thing in things {
        if is_same_name(name, thing.name()) {
            return Some(thing);
        }
    }
    None
}

/// Where the first of that name is, each compared.
fn first_place<T: HasName>(things: &[T], name: &str) -> Option<usize>
    ensures { result ≡ position_from (λ x. bytes_eq name.now (T.name x)) 0 things.now }
{
    for place in 0..things.len() {
        if is_same_name(name, things[place].name()) {
            return Some(place);
        }
    }
    None
}

/// The thing at a place.
pub fn thing_at<T>(things: &[T], place: usize) -> Option<&T>
    ensures { option_copied result ≡ slice_get things.now place }
{
    things.get(place)
}

/// The first of that name among the things whose places these are.
fn thing_placed<'a, T: HasName>(places: &Places, things: &'a [T], name: &str) -> Option<&'a T>
    requires { ArePlaces places.now (map T.name things.now) }
    ensures { option_copied result ≡ find (λ x. bytes_eq name.now (T.name x)) things.now }
{
    match places.place_of(things, name) {
        Some(place) => thing_at(things, place),
        None => None,
    }
}

impl<T: HasName + Drop> NamedList<T> {
    /// These things, in their order.
    pub fn new(alloc: Global, things: Vec<T>) -> Result<NamedList<T>, AllocError>
        ensures { IfOk result (λ named. named ≡ things.items) }
    {
        if things.len() <= FEW {
            return Ok(NamedList {
                things,
                places: None,
            });
        }
        let places = Places::of(alloc, things.as_slice())?;
        let places = Shared::new(alloc, places)?;
        Ok(NamedList {
            things,
            places: Some(places),
        })
    }

    /// These things, in their order, by the prints of their names; none if two names have one print.
    pub fn of_prints(
        alloc: Global,
        things: Vec<T>,
        prints: Vec<u64>,
    ) -> Result<Option<NamedList<T>>, AllocError>
        requires { prints.items ≡ map print_of (map T.name things.items) }
        ensures some { IfOk result (λ found. IfSome found (λ named.
            (named ≡ things.items) × HaveOwnPrints (map T.name things.items))) }
        ensures none { IfOk result (λ found. IfNone found (
            HaveOwnPrints (map T.name things.items) → ⊥)) }
    {
        match Places::of_prints(alloc, prints)? {
            Some(places) => {
                let places = Shared::new(alloc, places)?;
                Ok(Some(NamedList {
                    things,
                    places: Some(places),
                }))
            }
            None => Ok(None),
        }
    }

    /// These things, in their order. They share the look-up of others, which have the same names.
    pub fn of_names<U: HasName>(
        things: Vec<T>,
        others: &NamedList<U>,
    ) -> Result<NamedList<T>, AllocError>
        requires { map T.name things.items ≡ map U.name others.now }
        ensures { IfOk result (λ named. named ≡ things.items) }
    {
        match &others.places {
            Some(places) => {
                let places = places.clone()?;
                Ok(NamedList {
                    things,
                    places: Some(places),
                })
            }
            None => Ok(NamedList {
                things,
                places: None,
            }),
        }
    }
}

impl<T: HasName> NamedList<T> {
    /// The things, in their order.
    pub fn as_slice(&self) -> &[T]
        ensures { result.now ≡ self.now }
    {
        self.things.as_slice()
    }

    /// The prints of the names, in their order; none if two names have one print, or if the things are
    /// few.
    pub fn prints(&self) -> Option<&[u64]>
        ensures { IfSome result (λ prints. prints.now ≡ map print_of (map T.name self.now)) }
    {
        match &self.places {
            Some(places) => places.get().prints(),
            None => None,
        }
    }

    /// Whether it is known that each name occurs once.
    pub fn are_once(&self) -> bool
        ensures { IsTrue result → AreOnce (map T.name self.now) }
    {
        match &self.places {
            Some(places) => places.get().are_once(),
            None => false,
        }
    }

    /// The first of that name.
    pub fn get(&self, name: &str) -> Option<&T>
        ensures { option_copied result ≡ find (λ x. bytes_eq name.now (T.name x)) self.now }
    {
        match &self.places {
            Some(places) => thing_placed(places.get(), self.things.as_slice(), name),
            None => first_named(self.things.as_slice(), name),
        }
    }

    /// Where the first of that name is.
    fn place_of(&self, name: &str) -> Option<usize>
        ensures { result ≡ position_from (λ x. bytes_eq name.now (T.name x)) 0 self.now }
    {
        match &self.places {
            Some(places) => places.get().place_of(self.things.as_slice(), name),
            None => first_place(self.things.as_slice(), name),
        }
    }

    /// Whether it is known that the first of that name is at this place.
    fn is_at(&self, place: usize, name: &str) -> bool
        ensures { IsTrue result
            → position_from (λ x. bytes_eq name.now (T.name x)) 0 self.now ≡ Some place }
    {
        if !self.are_once() {
            return false;
        }
        match thing_at(self.things.as_slice(), place) {
            Some(thing) => is_same_name(name, thing.name()),
            None => false,
        }
    }

    /// Where the first of that name is. It is soon found if it is at this place.
    pub fn place_near(&self, place: usize, name: &str) -> Option<usize>
        ensures { result ≡ position_from (λ x. bytes_eq name.now (T.name x)) 0 self.now }
    {
        if self.is_at(place, name) {
            Some(place)
        } else {
            self.place_of(name)
        }
    }

    /// The first of that name. It is soon found if it is at this place.
    pub fn get_near(&self, place: usize, name: &str) -> Option<&T>
        ensures { option_copied result ≡ find (λ x. bytes_eq name.now (T.name x)) self.now }
    {
        if self.is_at(place, name) {
            thing_at(self.things.as_slice(), place)
        } else {
            self.get(name)
        }
    }

    /// For each thing, whether its name is among these.
    pub fn are_among(&self, alloc: Global, names: &Named<Text>) -> Result<Vec<bool>, AllocError>
        ensures { IfOk result (λ marks. marks.items ≡ are_among names.now (map T.name self.now)) }
    {
        match &self.places {
            Some(places) if places.get().are_once() => {
                let places = places.get();
                let marks = marked(alloc, self.things.as_slice(), places, names.as_slice())?;
                Ok(marks)
            }
            _ => asked(alloc, self.things.as_slice(), names),
        }
    }
}
