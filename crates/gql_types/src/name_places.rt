//! Where the first of each name is in a list. It is found by the prints of the names, if no two names
//! have one print, and else by the names.
ghost use Rattle.std.specs.Prelude.{◌≡◌, ℕ, List, IfNone, IfOk, IfSome, IsTrue, None, Some, false, map, bytes_eq, slice_get, option_map, unwrap_or};
ghost use Rattle.std.specs.List.{position_from};
ghost use Rattle.std.specs.HashMap as hash;
ghost use Rattle.gql_types.specs.Names.{AreOnce};
ghost use Rattle.gql_types.specs.NamePlaces.{ArePlaces, HasFirsts, HasNames, HasPrints};
ghost use Rattle.gql_types.specs.Prints as spec;
ghost use Rattle.gql_types.specs.Prints.{AreDistinct, HaveOwnPrints};

use crate::named::HasName;
use crate::prints::print_of;
use crate::same_name::is_same_name;
use std::alloc::{AllocError, Global};
use std::collections::HashMap;

/// Where the first of each name is, by the names.
#[derive(Drop)]
pub struct PlacesByName {
    first: HashMap<String, usize>,
    /// Whether each name occurs once.
    are_once: bool,
}

/// Where the first of each name is, by the prints of the names, and these prints in their order.
#[derive(Drop)]
pub struct PlacesByPrint {
    first: HashMap<u64, usize>,
    prints: Vec<u64>,
}

/// Where the first of each name is in a list.
#[derive(Drop)]
pub enum Places {
    /// By the print of the name. No two names of the list have one print.
    ByPrint(PlacesByPrint),
    /// By the name. A name of the list occurs twice, or two have one print.
    ByName(PlacesByName),
}

/// Where each print is; none if two are the same.
fn places_of_prints(
    alloc: Global,
    prints: &[u64],
) -> Result<Option<HashMap<u64, usize>>, AllocError>
    ensures some { IfOk result (λ found. IfSome found (λ first.
        HasFirsts first prints.now × AreDistinct prints.now)) }
    ensures none { IfOk result (λ found. IfNone found (AreDistinct prints.now → ⊥)) }
{
    let mut first = HashMap::with_capacity(alloc, prints.len())?;
    let mut place = prints.len();
    'prints: while place > 0 {
        place -= 1;
        let later = first.insert(prints[place], place)?;
        if later.is_some() {
            return Ok(None);
        }
    }
    Ok(Some(first))
}

/// The print of the name of each thing.
fn prints_of<T: HasName>(alloc: Global, things: &[T]) -> Result<Vec<u64>, AllocError>
    ensures { IfOk result (λ prints. prints.items ≡ map spec.print_of (map T.name things.now)) }
{
    let mut prints = Vec::with_capacity(alloc, things.len())?;
    for thing in things {
        prints.push(print_of(thing.name()))?;
    }
    Ok(prints)
}

/// Whether each name still occurs once, with one more name: where it occurs again, if it does.
fn is_once_more(are_once: bool, later: Option<usize>) -> bool
    ensures once { IsTrue result → IsTrue are_once }
    ensures new { IsTrue result → later ≡ None }
{
    are_once && later.is_none()
}

/// Where the first of each name is, by the names.
fn places_by_name<T: HasName>(alloc: Global, things: &[T]) -> Result<PlacesByName, AllocError>
    ensures { IfOk result (λ places. HasNames places (map T.name things.now)) }
{
    let mut first = HashMap::with_capacity(alloc, things.len())?;
    let mut are_once = true;
    let mut place = things.len();
    'things: while place > 0 {
        place -= 1;
        let later = first.insert(String::from_str(alloc, things[place].name())?, place)?;
        are_once = is_once_more(are_once, later);
    }
    Ok(PlacesByName { first, are_once })
}

/// Whether the thing at a place has this name.
fn is_named<T: HasName>(things: &[T], place: usize, name: &str) -> bool
    ensures { result ≡ unwrap_or
        (option_map (λ x. bytes_eq name.now (T.name x)) (slice_get things.now place)) false }
{
    match things.get(place) {
        Some(thing) => is_same_name(name, thing.name()),
        None => false,
    }
}

/// Where the first of that name is, by its print.
fn place_by_print<T: HasName>(
    first: &HashMap<u64, usize>,
    things: &[T],
    name: &str,
) -> Option<usize>
    requires first { HasPrints first.now (map T.name things.now) }
    requires own { HaveOwnPrints (map T.name things.now) }
    ensures { result ≡ position_from (λ x. bytes_eq name.now (T.name x)) 0 things.now }
{
    match first.get(&print_of(name)) {
        Some(place) => {
            if is_named(things, *place, name) {
                Some(*place)
            } else {
                None
            }
        }
        None => None,
    }
}

/// Where the first of that name is, by the name.
fn place_by_name(first: &HashMap<String, usize>, name: &str) -> Option<usize>
    ensures { result ≡ hash.get_by_text first.now name.now }
{
    match first.get(name) {
        Some(place) => Some(*place),
        None => None,
    }
}

impl Places {
    /// The places of the names of these things.
    pub fn of<T: HasName>(alloc: Global, things: &[T]) -> Result<Places, AllocError>
        ensures { IfOk result (λ places. ArePlaces places (map T.name things.now)) }
    {
        let prints = prints_of(alloc, things)?;
        match Places::of_prints(alloc, prints)? {
            Some(places) => Ok(places),
            None => {
                let places = places_by_name(alloc, things)?;
                Ok(Places::ByName(places))
            }
        }
    }

    /// The places of names by their prints; none if two names have one print.
    pub fn of_prints(alloc: Global, prints: Vec<u64>) -> Result<Option<Places>, AllocError>
        ensures some { (names : List (List ℕ)) → prints.items ≡ map spec.print_of names
            → IfOk result (λ found. IfSome found (λ places.
            ArePlaces places names × HaveOwnPrints names)) }
        ensures none { (names : List (List ℕ)) → prints.items ≡ map spec.print_of names
            → IfOk result (λ found. IfNone found (HaveOwnPrints names → ⊥)) }
    {
        match places_of_prints(alloc, prints.as_slice())? {
            Some(first) => Ok(Some(Places::ByPrint(PlacesByPrint { first, prints }))),
            None => Ok(None),
        }
    }

    /// The prints of the names, in their order; none if two names have one print.
    pub fn prints(&self) -> Option<&[u64]>
        ensures some { (names : List (List ℕ)) → ArePlaces self.now names
            → IfSome result (λ prints. prints.now ≡ map spec.print_of names) }
        ensures none { (names : List (List ℕ)) → ArePlaces self.now names
            → IfNone result (HaveOwnPrints names → ⊥) }
    {
        match self {
            Places::ByPrint(places) => Some(places.prints.as_slice()),
            Places::ByName(_) => None,
        }
    }

    /// Where the first thing of that name is among the things whose places these are.
    pub fn place_of<T: HasName>(&self, things: &[T], name: &str) -> Option<usize>
        requires { ArePlaces self.now (map T.name things.now) }
        ensures { result ≡ position_from (λ x. bytes_eq name.now (T.name x)) 0 things.now }
    {
        match self {
            Places::ByPrint(places) => place_by_print(&places.first, things, name),
            Places::ByName(places) => place_by_name(&places.first, name),
        }
    }

    /// Whether it is known that each name occurs once.
    pub fn are_once(&self) -> bool
        ensures { (names : List (List ℕ)) → ArePlaces self.now names → IsTrue result
            → AreOnce names }
    {
        match self {
            Places::ByPrint(_) => true,
            Places::ByName(places) => places.are_once,
        }
    }
}
