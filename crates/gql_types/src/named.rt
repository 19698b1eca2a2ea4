//! Things that have names, with a look-up of the first of a name.

ghost use Rattle.std.specs.Prelude.{◌≡◌, ℕ, List, [], IfNone, IfOk, IfSome, IsTrue, None, find, map, bytes_eq};
ghost use Rattle.std.specs.Option.{option_copied};
ghost use Rattle.std.specs.List.{position_from};
ghost use Rattle.gql_types.specs.Names.{AreOnce, are_among};
ghost use Rattle.gql_types.specs.Prints.{HaveOwnPrints, print_of};

use crate::batched::Batched;
use crate::named_list::{NamedList, have_same_names};
use gql_ast::{Shared, Text};
use std::alloc::{AllocError, Global};
use std::marker::Model;

/// Something that has a name.
pub trait HasName {
    ghost name: { Self → List ℕ };

    /// The name.
    fn name(&self) -> &str
        ensures { result.now ≡ name self.now };
}

impl HasName for Text {
    ghost name = { λ text. text };

    fn name(&self) -> &str {
        self.as_str()
    }
}

impl<T: HasName> HasName for Shared<T> {
    ghost name = { T.name };

    fn name(&self) -> &str {
        self.get().name()
    }
}

impl<T: HasName> HasName for Batched<T> {
    ghost name = { T.name };

    fn name(&self) -> &str {
        self.get().name()
    }
}

/// Where to look first for the next thing of a list, if the one before it was found here in another
/// list: most things follow one another in both. Nothing rests on it.
pub fn next_place(found: Option<usize>, place: usize) -> usize
    ensures { found ≡ None → result ≡ place }
{
    match found {
        Some(found) => found.saturating_add(1),
        None => place,
    }
}

/// Things in their order, with a look-up of the first of a name. Contracts see the list of the
/// things. A copy shares them.
pub struct Named<T: HasName> {
    /// The things; none if there are none.
    list: Option<Shared<NamedList<T>>>,
}

impl<T: HasName + Drop> Drop for Named<T> {
    fn drop(self) {
        let Named { list: _ } = self;
    }
}

impl<T: HasName> Model for Named<T> {
    ghost use Rattle.std.specs.Prelude.{List, []};
    ghost use Rattle.std.specs.Option.{unwrap_or};
    ghost use Rattle.std.specs.Coded.{coded_list};

    ghost Value = { List T };

    ghost coded = { coded_list T.code };

    ghost view = { λ n. unwrap_or n.list [] };
}

impl<T: HasName + Drop> Named<T> {
    /// These things, in their order.
    pub fn new(alloc: Global, things: Vec<T>) -> Result<Named<T>, AllocError>
        ensures { IfOk result (λ named. named ≡ things.items) }
    {
        if things.is_empty() {
            return Ok(Named { list: None });
        }
        let list = NamedList::new(alloc, things)?;
        let list = Shared::new(alloc, list)?;
        Ok(Named { list: Some(list) })
    }

    /// These things, in their order, by the prints of their names; none if two names have one print.
    pub(crate) fn of_prints(
        alloc: Global,
        things: Vec<T>,
        prints: Vec<u64>,
    ) -> Result<Option<Named<T>>, AllocError>
        requires { prints.items ≡ map print_of (map T.name things.items) }
        ensures some { IfOk result (λ found. IfSome found (λ named.
            (named ≡ things.items) × HaveOwnPrints (map T.name things.items))) }
        ensures none { IfOk result (λ found. IfNone found (
            HaveOwnPrints (map T.name things.items) → ⊥)) }
    {
        match NamedList::of_prints(alloc, things, prints)? {
            Some(list) => {
                let list = Shared::new(alloc, list)?;
                Ok(Some(Named { list: Some(list) }))
            }
            None => Ok(None),
        }
    }

    /// These things, in their order. They share the look-up of others that have the same names.
    pub fn like<U: HasName>(
        alloc: Global,
        things: Vec<T>,
        others: &Named<U>,
    ) -> Result<Named<T>, AllocError>
        ensures { IfOk result (λ named. named ≡ things.items) }
    {
        if have_same_names(things.as_slice(), others.as_slice()) {
            return Named::of_names(alloc, things, others);
        }
        Named::new(alloc, things)
    }

    /// These things, in their order. They share the look-up of others, which have the same names in
    /// the same order.
    pub fn of_names<U: HasName>(
        alloc: Global,
        things: Vec<T>,
        others: &Named<U>,
    ) -> Result<Named<T>, AllocError>
        requires { map T.name things.items ≡ map U.name others.now }
        ensures { IfOk result (λ named. named ≡ things.items) }
    {
        match &others.list {
            Some(others) => {
                let list = NamedList::of_names(things, others.get())?;
                let list = Shared::new(alloc, list)?;
                Ok(Named { list: Some(list) })
            }
            None => Named::new(alloc, things),
        }
    }

    /// The same things, which both share.
    pub fn copy(&self) -> Result<Named<T>, AllocError>
        ensures { IfOk result (λ copy. copy ≡ self.now) }
    {
        match &self.list {
            Some(list) => {
                let list = list.clone()?;
                Ok(Named { list: Some(list) })
            }
            None => Ok(Named { list: None }),
        }
    }
}

impl<T: HasName> Named<T> {
    /// The things, in their order.
    pub fn as_slice(&self) -> &[T]
        ensures { result.now ≡ self.now }
    {
        match &self.list {
            Some(list) => list.get().as_slice(),
            None => &[],
        }
    }

    /// The prints of the names, in their order, if they are at hand.
    pub(crate) fn prints(&self) -> Option<&[u64]>
        ensures { IfSome result (λ prints. prints.now ≡ map print_of (map T.name self.now)) }
    {
        match &self.list {
            Some(list) => list.get().prints(),
            None => None,
        }
    }

    /// Whether it is known that each name occurs once.
    pub fn are_once(&self) -> bool
        ensures { IsTrue result → AreOnce (map T.name self.now) }
    {
        match &self.list {
            Some(list) => list.get().are_once(),
            None => true,
        }
    }

    /// Whether these things have the names of others, in the same order.
    pub fn has_names_of<U: HasName>(&self, others: &Named<U>) -> bool
        ensures { IsTrue result → map T.name self.now ≡ map U.name others.now }
    {
        have_same_names(self.as_slice(), others.as_slice())
    }

    /// The first of that name.
    pub fn get(&self, name: &str) -> Option<&T>
        ensures { option_copied result ≡ find (λ x. bytes_eq name.now (T.name x)) self.now }
    {
        match &self.list {
            Some(list) => list.get().get(name),
            None => None,
        }
    }

    /// Where the first of that name is. It is soon found if it is at this place.
    pub fn place_near(&self, place: usize, name: &str) -> Option<usize>
        ensures { result ≡ position_from (λ x. bytes_eq name.now (T.name x)) 0 self.now }
    {
        match &self.list {
            Some(list) => list.get().place_near(place, name),
            None => None,
        }
    }

    /// The first of that name. It is soon found if it is at this place.
    pub fn get_near(&self, place: usize, name: &str) -> Option<&T>
        ensures { option_copied result ≡ find (λ x. bytes_eq name.now (T.name x)) self.now }
    {
        match &self.list {
            Some(list) => list.get().get_near(place, name),
            None => None,
        }
    }

    /// For each thing, whether its name is among these.
    pub fn are_among(&self, alloc: Global, names: &Named<Text>) -> Result<Vec<bool>, AllocError>
        ensures { IfOk result (λ marks. marks.items ≡ are_among names.now (map T.name self.now)) }
    {
        match &self.list {
            Some(list) => list.get().are_among(alloc, names),
            None => Ok(Vec::new(alloc)),
        }
    }
}
