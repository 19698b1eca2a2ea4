//! The first item that a probe looks for.
ghost use Rattle.std.specs.Prelude.{◌≡◌, find, not, slice_get};
ghost use Rattle.std.specs.Option.{option_copied};
ghost use Rattle.std.specs.Ordering.{is_eq, is_lt};
ghost use Rattle.gql_chunks.specs.Lists.{AreInOrder, IsChunked, joined};
ghost use Rattle.gql_chunks.specs.Cuts as spec;
ghost use Rattle.gql_chunks.specs.Cuts.{ends_below};

use crate::chunk::Chunk;
use crate::order::{HasOrder, Probe};
use gql_ast::Shared;

/// Whether the last item of a chunk is before what is looked for.
#[tactic(auto, using(crate::proofs::Searching::ends_at, crate::proofs::Searching::ends_none))]
fn is_below<T: HasOrder, P: Probe<T>>(chunk: &Chunk<T>, probe: &P) -> bool
    ensures { result ≡ ends_below (P.order probe.now) chunk.now }
{
    match chunk.as_slice().last() {
        Some(item) => probe.order_of(item.get()).is_lt(),
        None => false,
    }
}

/// The item at a place.
fn item_at<T>(items: &[Shared<T>], place: usize) -> Option<&T>
    ensures { option_copied result ≡ slice_get items.now place }
{
    match items.get(place) {
        Some(item) => Some(item.get()),
        None => None,
    }
}

/// The chunk at a place.
fn chunk_at<T>(chunks: &[Shared<Chunk<T>>], place: usize) -> Option<&Chunk<T>>
    ensures { option_copied result ≡ slice_get chunks.now place }
{
    match chunks.get(place) {
        Some(chunk) => Some(chunk.get()),
        None => None,
    }
}

/// The first of these items that is not before what is looked for.
fn first_from<'i, T: HasOrder, P: Probe<T>>(items: &'i [Shared<T>], probe: &P) -> Option<&'i T>
    requires { AreInOrder T.order items.now }
    ensures { option_copied result ≡ find (λ x. not (is_lt (P.order probe.now x))) items.now }
{
    let place = items.partition_point(|item| probe.order_of(item.get()).is_lt());
    item_at(items, place)
}

/// The first item of these chunks that is not before what is looked for.
fn first_in_chunks<'i, T: HasOrder, P: Probe<T>>(
    chunks: &'i [Shared<Chunk<T>>],
    probe: &P,
) -> Option<&'i T>
    requires { IsChunked T.order chunks.now }
    ensures { option_copied result
        ≡ find (λ x. not (is_lt (P.order probe.now x))) (joined chunks.now) }
{
    let place = chunks.partition_point(|chunk| is_below(chunk.get(), probe));
    match chunk_at(chunks, place) {
        Some(chunk) => first_from(chunk.as_slice(), probe),
        None => None,
    }
}

/// The item, if it is looked for.
fn if_equal<'i, T: HasOrder, P: Probe<T>>(item: Option<&'i T>, probe: &P) -> Option<&'i T>
    ensures { option_copied result
        ≡ spec.if_equal (P.order probe.now) (option_copied item.entry) }
{
    match item {
        Some(item) => {
            if probe.order_of(item).is_eq() {
                Some(item)
            } else {
                None
            }
        }
        None => None,
    }
}

/// The first item of these chunks that a probe looks for.
pub fn find_in<'i, T: HasOrder, P: Probe<T>>(
    chunks: &'i [Shared<Chunk<T>>],
    probe: &P,
) -> Option<&'i T>
    requires { IsChunked T.order chunks.now }
    ensures { option_copied result ≡ find (λ x. is_eq (P.order probe.now x)) (joined chunks.now) }
{
    let first = first_in_chunks(chunks, probe);
    if_equal(first, probe)
}
