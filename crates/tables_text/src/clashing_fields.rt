//! Which fields clash, where fields and selection sets are numbers.
ghost use Rattle.std.specs.Prelude.{◌<◌, IfSome, length, Contains};
ghost use Rattle.gql_clashes.specs.Numbered.{IsWhole};
ghost use Rattle.gql_clashes.specs.Seen.{IsInside};
ghost use Rattle.gql_clashes.specs.declared.search.Item as item;

use crate::numbered_sets::{sets_in, spread_bodies};
use gql_clashes::{
    Item, Mode, Pair, Sets, clashes, clashes_among, clashes_between, clashes_by_parts,
    spread_pairs, table_of,
};
use std::alloc::Global;
use table_rows::join;

/// A pair: the two numbers, the lesser one first, and whether only shapes are compared.
type Clash = (usize, usize, bool);

/// The pairs in their order, each once.
fn sorted(alloc: Global, pairs: &[Pair]) -> Option<Vec<Clash>> {
    let mut clashes = Vec::new(alloc);
    for pair in pairs {
        let of_shape = match pair.mode {
            Mode::Merge => false,
            Mode::Shape => true,
        };
        clashes.push((pair.first, pair.second, of_shape)).ok()?;
    }
    clashes.sort().ok()?;
    clashes.dedup();
    Some(clashes)
}

/// The pairs, `NUMBER NUMBER` or `NUMBER NUMBER shape` each, or `none`.
fn written(alloc: Global, clashes: &[Clash]) -> Option<String> {
    let mut written = String::new(alloc);
    for (first, second, of_shape) in clashes {
        let mode = if *of_shape { " shape" } else { "" };
        let pair = format!(in alloc; "{first} {second}{mode}").ok()?;
        join(&mut written, ", ", pair.as_str()).ok()?;
    }
    if written.is_empty() {
        written.push_str("none").ok()?;
    }
    Some(written)
}

/// The clashes between the two bodies of each pair, by one search.
fn among(alloc: Global, sets: &Sets, pairs: &[Item]) -> Option<Vec<Clash>>
    requires whole { IsWhole sets.now }
    requires inside { (x : item.Item) → Contains pairs.now x
        → IsInside (length sets.now.bodies.items) x }
{
    let table = match table_of(alloc, sets) {
        Ok(table) => table,
        Err(_) => return None,
    };
    let found = clashes_among(alloc, sets, &table, pairs).ok()?;
    sorted(alloc, found.as_slice())
}

/// The clashes where the selections of a body are merged, from all pairs of bodies that it spreads.
fn by_pairs(alloc: Global, sets: &Sets, body: usize) -> Option<Vec<Clash>>
    requires whole { IsWhole sets.now }
    requires body { body < length sets.now.bodies.items }
{
    match spread_pairs(alloc, sets, &[body]) {
        Ok(pairs) => among(alloc, sets, pairs.as_slice()),
        Err(_) => None,
    }
}

/// The clashes where the selections of a body are merged. Those that are put together from the
/// pairs of bodies that it spreads have to be the same, and those from its parts, if it spreads no
/// body that spreads another one.
fn whole_answer(alloc: Global, sets: &Sets, body: usize) -> Option<String>
    requires { IsWhole sets.now }
{
    if body >= sets.bodies.len() {
        return None;
    }
    let found = clashes(alloc, sets, &[body]).ok()?;
    let found = sorted(alloc, found.as_slice())?;
    if by_pairs(alloc, sets, body)?.as_slice() != found.as_slice() {
        return String::from_str(alloc, "others by pairs").ok();
    }
    if let Some(list) = spread_bodies(alloc, sets, body) {
        let parts = clashes_by_parts(alloc, sets, body, list.as_slice()).ok()?;
        if sorted(alloc, parts.as_slice())?.as_slice() != found.as_slice() {
            return String::from_str(alloc, "others by parts").ok();
        }
    }
    written(alloc, found.as_slice())
}

/// The clashes between two bodies, which are the same in both orders.
fn between_answer(alloc: Global, sets: &Sets, left: usize, right: usize) -> Option<String>
    requires { IsWhole sets.now }
{
    if left >= sets.bodies.len() || right >= sets.bodies.len() {
        return None;
    }
    let found = clashes_between(alloc, sets, left, right).ok()?;
    let found = sorted(alloc, found.as_slice())?;
    let turned = clashes_between(alloc, sets, right, left).ok()?;
    if sorted(alloc, turned.as_slice())?.as_slice() != found.as_slice() {
        return String::from_str(alloc, "others in the other order").ok();
    }
    written(alloc, found.as_slice())
}

/// Two bodies, `BODY BODY`, if there are so many.
fn pair_in(text: &str, count: usize) -> Option<Item>
    ensures { IfSome result (IsInside count) }
{
    let (left, right) = text.split_once(" ")?;
    let left = left.parse::<usize>().ok()?;
    let right = right.parse::<usize>().ok()?;
    if left >= count || right >= count {
        return None;
    }
    Some(Item {
        left,
        right,
        mode: Mode::Merge,
    })
}

/// Pairs of bodies, `BODY BODY, BODY BODY`, if there are so many.
fn pairs_in(alloc: Global, text: &str, count: usize) -> Option<Vec<Item>>
    ensures { IfSome result (λ pairs. (x : item.Item) → Contains pairs.items x
        → IsInside count x) }
{
    let mut pairs = Vec::new(alloc);
    for part in text.split(", ") {
        let pair = pair_in(part, count)?;
        pairs.push(pair).ok()?;
    }
    Some(pairs)
}

/// The clashes between the two bodies of each pair.
fn among_answer(alloc: Global, sets: &Sets, text: &str) -> Option<String>
    requires { IsWhole sets.now }
{
    let pairs = pairs_in(alloc, text, sets.bodies.len())?;
    written(alloc, among(alloc, sets, pairs.as_slice())?.as_slice())
}

/// The pairs of bodies that a body spreads, itself among them.
fn spread_answer(alloc: Global, sets: &Sets, body: usize) -> Option<String>
    requires { IsWhole sets.now }
{
    if body >= sets.bodies.len() {
        return None;
    }
    let mut pairs = Vec::new(alloc);
    for pair in spread_pairs(alloc, sets, &[body]).ok()? {
        pairs.push((pair.left, pair.right, false)).ok()?;
    }
    pairs.sort().ok()?;
    written(alloc, pairs.as_slice())
}

/// Which fields clash: `in BODY`, `between BODY BODY`, or `among BODY BODY, BODY BODY`; or which
/// pairs of bodies a body spreads: `spread BODY`.
pub fn clashes_answer(alloc: Global, text: &str, question: &str) -> Option<String> {
    let sets = sets_in(alloc, text)?;
    match question.split_once(" ")? {
        ("in", body) => whole_answer(alloc, &sets, body.parse::<usize>().ok()?),
        ("among", pairs) => among_answer(alloc, &sets, pairs),
        ("spread", body) => spread_answer(alloc, &sets, body.parse::<usize>().ok()?),
        ("between", bodies) => {
            let (left, right) = bodies.split_once(" ")?;
            let left = left.parse::<usize>().ok()?;
            let right = right.parse::<usize>().ok()?;
            between_answer(alloc, &sets, left, right)
        }
        _ => None,
    }
}
