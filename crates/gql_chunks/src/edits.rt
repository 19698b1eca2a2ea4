//! Edits of lists in chunks: some items go, or some come.
ghost use Rattle.std.specs.Prelude.{◌≡◌, ◌≢◌, ◌++◌, ◌∷◌, [], IfOk, OnOk, slice_get};
ghost use Rattle.std.specs.Option.{option_copied};
ghost use Rattle.gql_chunks.specs.Cuts.{IsCut};
ghost use Rattle.gql_chunks.specs.Edits.{above, below, edited, one_if};
ghost use Rattle.gql_chunks.specs.Lists.{AreFull, AreInOrder, IsChunked, joined};

use crate::chunk::Chunk;
use crate::order::HasOrder;
use gql_ast::Shared;
use std::alloc::{AllocError, Global};

/// How many items a new chunk of many has.
const USUAL: usize = 64;

/// How many items a chunk has at most.
const MOST: usize = 128;

/// Adds handles on items.
fn add_handles<T: Drop>(items: &[Shared<T>], all: &mut Vec<Shared<T>>) -> Result<(), AllocError>
    ensures { OnOk result (all.new.items ≡ all.old.items ++ items.now) }
{
    for item in items {
        all.push(item.clone()?)?;
    }
    Ok(())
}

/// Handles on all items of these chunks.
pub fn handles<T: Drop>(
    alloc: Global,
    chunks: &[Shared<Chunk<T>>],
) -> Result<Vec<Shared<T>>, AllocError>
    ensures { IfOk result (λ all. all.items ≡ joined chunks.now) }
{
    let mut all = Vec::new(alloc);
    for chunk in chunks {
        add_handles(chunk.get().as_slice(), &mut all)?;
    }
    Ok(all)
}

/// The items before the place of one, and those after it.
fn split<'i, T: HasOrder>(items: &'i [Shared<T>], item: &T) -> (&'i [Shared<T>], &'i [Shared<T>])
    requires { AreInOrder T.order items.now }
    ensures before { result.0.now ≡ below T.order item.now items.now }
    ensures after { result.1.now ≡ above T.order item.now items.now }
{
    let found = items.binary_search_by(|other| other.get().order_to(item));
    match found {
        Ok(place) => (&items[..place], &items[place + 1..]),
        Err(place) => (&items[..place], &items[place..]),
    }
}

/// Adds an item, if it comes.
fn add_if<T: Drop>(
    comes: bool,
    item: &Shared<T>,
    all: &mut Vec<Shared<T>>,
) -> Result<(), AllocError>
    ensures { OnOk result (all.new.items ≡ all.old.items ++ one_if comes item.now) }
{
    if comes {
        all.push(item.clone()?)?;
    }
    Ok(())
}

/// The items with those that change: all of these come, or all of them go.
fn edit<T: HasOrder + Drop>(
    alloc: Global,
    items: &[Shared<T>],
    changed: &[Shared<T>],
    comes: bool,
) -> Result<Vec<Shared<T>>, AllocError>
    requires { AreInOrder T.order items.now }
    ensures { IfOk result (λ all. all.items ≡ edited T.order comes items.now changed.now) }
{
    let mut all = Vec::with_capacity(alloc, items.len().saturating_add(changed.len()))?;
    let mut rest = items;
    for item in changed {
        let (before, after) = split(rest, item.get());
        add_handles(before, &mut all)?;
        add_if(comes, item, &mut all)?;
        rest = after;
    }
    add_handles(rest, &mut all)?;
    Ok(all)
}

/// Adds a chunk of these items, if there are any.
#[tactic(auto, using(crate::proofs::Pushing::joined_push, crate::proofs::Pushing::full_push))]
fn add_chunk<T: Drop>(
    alloc: Global,
    items: Vec<Shared<T>>,
    chunks: &mut Vec<Shared<Chunk<T>>>,
) -> Result<(), AllocError>
    requires { AreFull chunks.old.items }
    ensures items { OnOk result (joined chunks.new.items ≡ joined chunks.old.items ++ items.items) }
    ensures full { OnOk result (AreFull chunks.new.items) }
{
    if items.is_empty() {
        return Ok(());
    }
    chunks.push(Shared::new(alloc, Chunk::new(items))?)?;
    Ok(())
}

/// The items to which one more is added: these, or none if they are a whole chunk, which is added.
fn with_room<T: Drop>(
    alloc: Global,
    items: Vec<Shared<T>>,
    chunks: &mut Vec<Shared<Chunk<T>>>,
) -> Result<Vec<Shared<T>>, AllocError>
    requires { AreFull chunks.old.items }
    ensures items { IfOk result (λ rest. joined chunks.new.items ++ rest.items
        ≡ joined chunks.old.items ++ items.items) }
    ensures full { OnOk result (AreFull chunks.new.items) }
{
    if items.len() < USUAL {
        return Ok(items);
    }
    let next = Vec::with_capacity(alloc, USUAL)?;
    add_chunk(alloc, items, chunks)?;
    Ok(next)
}

/// Adds these items in chunks of the usual length.
fn add_parts<T: Drop>(
    alloc: Global,
    items: &[Shared<T>],
    chunks: &mut Vec<Shared<Chunk<T>>>,
) -> Result<(), AllocError>
    requires { AreFull chunks.old.items }
    ensures items { OnOk result (joined chunks.new.items ≡ joined chunks.old.items ++ items.now) }
    ensures full { OnOk result (AreFull chunks.new.items) }
{
    let mut part = Vec::with_capacity(alloc, USUAL)?;
    for item in items {
        let mut room = with_room(alloc, part, chunks)?;
        room.push(item.clone()?)?;
        part = room;
    }
    add_chunk(alloc, part, chunks)
}

/// Adds these items: in one chunk, unless they are too many.
fn add_items<T: Drop>(
    alloc: Global,
    items: Vec<Shared<T>>,
    chunks: &mut Vec<Shared<Chunk<T>>>,
) -> Result<(), AllocError>
    requires { AreFull chunks.old.items }
    ensures items { OnOk result (joined chunks.new.items ≡ joined chunks.old.items ++ items.items) }
    ensures full { OnOk result (AreFull chunks.new.items) }
{
    if items.len() > MOST {
        return add_parts(alloc, items.as_slice(), chunks);
    }
    add_chunk(alloc, items, chunks)
}

/// Adds the items with those that change.
fn add_edited<T: HasOrder + Drop>(
    alloc: Global,
    items: &[Shared<T>],
    changed: &[Shared<T>],
    comes: bool,
    chunks: &mut Vec<Shared<Chunk<T>>>,
) -> Result<(), AllocError>
    requires order { AreInOrder T.order items.now }
    requires full { AreFull chunks.old.items }
    ensures items { OnOk result (joined chunks.new.items
        ≡ joined chunks.old.items ++ edited T.order comes items.now changed.now) }
    ensures full { OnOk result (AreFull chunks.new.items) }
{
    let edited = edit(alloc, items, changed, comes)?;
    add_items(alloc, edited, chunks)
}

/// Adds a chunk with the items that change in it. It is shared, if there are none.
#[tactic(auto, using(crate::proofs::Pushing::joined_push, crate::proofs::Pushing::full_push))]
fn add_edited_chunk<T: HasOrder + Drop>(
    alloc: Global,
    chunk: &Shared<Chunk<T>>,
    changed: &[Shared<T>],
    comes: bool,
    chunks: &mut Vec<Shared<Chunk<T>>>,
) -> Result<(), AllocError>
    requires order { AreInOrder T.order chunk.now }
    requires some { chunk.now ≢ [] }
    requires full { AreFull chunks.old.items }
    ensures items { OnOk result (joined chunks.new.items
        ≡ joined chunks.old.items ++ edited T.order comes chunk.now changed.now) }
    ensures full { OnOk result (AreFull chunks.new.items) }
{
    if changed.is_empty() {
        chunks.push(chunk.clone()?)?;
        return Ok(());
    }
    add_edited(alloc, chunk.get().as_slice(), changed, comes, chunks)
}

/// The first item of these chunks.
#[tactic(auto, using(crate::proofs::Pushing::first_joined, crate::proofs::Pushing::first_none))]
pub fn first_of<T>(chunks: &[Shared<Chunk<T>>]) -> Option<&T>
    requires { AreFull chunks.now }
    ensures { option_copied result ≡ slice_get (joined chunks.now) 0 }
{
    match chunks.first() {
        Some(chunk) => match chunk.get().as_slice().first() {
            Some(item) => Some(item.get()),
            None => None,
        },
        None => None,
    }
}

/// The items that change before the place of one, and the others. All are before it, if there is none.
fn cut<'c, T: HasOrder>(
    changed: &'c [Shared<T>],
    next: Option<&T>,
) -> (&'c [Shared<T>], &'c [Shared<T>])
    requires { AreInOrder T.order changed.now }
    ensures { IsCut T.order (option_copied next.entry) changed.now result.0.now result.1.now }
{
    match next {
        Some(next) => {
            let place = changed.partition_point(|item| item.get().order_to(next).is_lt());
            changed.split_at(place)
        }
        None => (changed, &changed[..0]),
    }
}

/// Adds the first of some chunks with the items that change in it. Returns those that change in the
/// others.
fn add_next<'c, T: HasOrder + Drop>(
    alloc: Global,
    chunk: &Shared<Chunk<T>>,
    others: &[Shared<Chunk<T>>],
    changed: &'c [Shared<T>],
    comes: bool,
    chunks: &mut Vec<Shared<Chunk<T>>>,
) -> Result<&'c [Shared<T>], AllocError>
    requires chunks { IsChunked T.order (chunk.now ∷ others.now) }
    requires changed { AreInOrder T.order changed.now }
    requires full { AreFull chunks.old.items }
    ensures others { IsChunked T.order others.now }
    ensures order { IfOk result (λ later. AreInOrder T.order later.now) }
    ensures full { OnOk result (AreFull chunks.new.items) }
    ensures items { IfOk result (λ later. joined chunks.new.items
        ++ edited T.order comes (joined others.now) later.now
        ≡ joined chunks.old.items
        ++ edited T.order comes (joined (chunk.now ∷ others.now)) changed.now) }
{
    let next = first_of(others);
    let (here, later) = cut(changed, next);
    add_edited_chunk(alloc, chunk, here, comes, chunks)?;
    Ok(later)
}

/// The chunks with the items that change, one chunk after the other.
fn edit_each<T: HasOrder + Drop>(
    alloc: Global,
    chunks: &[Shared<Chunk<T>>],
    changed: &[Shared<T>],
    comes: bool,
) -> Result<Vec<Shared<Chunk<T>>>, AllocError>
    requires chunks { IsChunked T.order chunks.now }
    requires changed { AreInOrder T.order changed.now }
    ensures items { IfOk result (λ all. joined all.items
        ≡ edited T.order comes (joined chunks.now) changed.now) }
    ensures full { IfOk result (λ all. AreFull all.items) }
{
    let mut all = Vec::with_capacity(alloc, chunks.len())?;
    let mut left = chunks;
    let mut rest = changed;
    while let Some((chunk, others)) = left.split_first() {
        rest = add_next(alloc, chunk, others, rest, comes, &mut all)?;
        left = others;
    }
    add_edited(alloc, &rest[..0], rest, comes, &mut all)?;
    Ok(all)
}

/// The chunks with the items that change: all of these come, or all of them go. A chunk in which none
/// changes is shared.
pub fn edit_chunks<T: HasOrder + Drop>(
    alloc: Global,
    chunks: &[Shared<Chunk<T>>],
    changed: &[Shared<T>],
    comes: bool,
) -> Result<Vec<Shared<Chunk<T>>>, AllocError>
    requires chunks { IsChunked T.order chunks.now }
    requires changed { AreInOrder T.order changed.now }
    ensures items { IfOk result (λ all. joined all.items
        ≡ edited T.order comes (joined chunks.now) changed.now) }
    ensures chunked { IfOk result (λ all. IsChunked T.order all.items) }
{
    let all = edit_each(alloc, chunks, changed, comes)?;
    Ok(all)
}
