//! Two fields that clash, without the definition that reports them.
ghost use Rattle.std.specs.Prelude.{◌≡◌, ◌++◌, ◌∷◌, [], IfOk, OnOk, flat_map};
ghost use Rattle.std.specs.Option.{option_copied};
ghost use Rattle.gql_merge.specs.BadPairs as spec;
ghost use Rattle.gql_merge.specs.Known.{info_in};
ghost use Rattle.gql_merge.specs.PairFaults.{differ_in_call, differ_in_shape};

use crate::columns::own_name;
use crate::faults::{is_before, place_of};
use crate::flat::FlatField;
use crate::v05_different_calls::do_meet;
use gql_ast::{FilePlace, Text};
use gql_clashes::{Mode, Pair};
use std::alloc::{AllocError, Global};

/// Two fields that clash. The first one is before the other: by the names of their files, then by
/// their places.
pub struct BadPair {
    /// Their response name.
    pub about: Text,
    pub first: FilePlace,
    pub second: FilePlace,
    /// How the two are compared.
    pub mode: Mode,
    /// Whether they differ in name or arguments (V05).
    pub by_call: bool,
    /// Whether the shapes of their types differ (V06).
    pub by_shape: bool,
}

impl Drop for BadPair {
    fn drop(self) {
        let BadPair {
            about: _,
            first: _,
            second: _,
            mode: _,
            by_call: _,
            by_shape: _,
        } = self;
    }
}

impl BadPair {
    /// An equal pair.
    pub fn copy(&self) -> Result<BadPair, AllocError>
        ensures { IfOk result (λ pair. pair ≡ self.now) }
    {
        Ok(BadPair {
            about: self.about.copy()?,
            first: self.first.copy()?,
            second: self.second.copy()?,
            mode: self.mode,
            by_call: self.by_call,
            by_shape: self.by_shape,
        })
    }
}

/// Whether two fields that are compared differ in name or arguments.
fn is_by_call(mode: Mode, first: &FlatField<'_>, second: &FlatField<'_>) -> bool
    ensures { result ≡ differ_in_call mode (info_in first.now.known) (info_in second.now.known) }
{
    let differ = first.known.call.as_str() != second.known.call.as_str();
    mode == Mode::Merge && do_meet(&first.known, &second.known) && differ
}

/// Whether the shapes of the types of two fields differ.
fn is_by_shape(first: &FlatField<'_>, second: &FlatField<'_>) -> bool
    ensures { result ≡ differ_in_shape (info_in first.now.known) (info_in second.now.known) }
{
    first.known.shape.as_str() != second.known.shape.as_str()
}

/// The bad pair of two fields, in this order.
fn bad_of(mode: Mode, first: &FlatField<'_>, second: &FlatField<'_>) -> Result<BadPair, AllocError>
    ensures { IfOk result (λ pair. pair
        ≡ spec.bad_of mode (info_in first.now.known) (info_in second.now.known)) }
{
    Ok(BadPair {
        about: own_name(first.known.field).text.copy()?,
        first: place_of(first)?,
        second: place_of(second)?,
        mode,
        by_call: is_by_call(mode, first, second),
        by_shape: is_by_shape(first, second),
    })
}

/// The bad pair of two fields, in their order.
fn ordered_bad(
    mode: Mode,
    first: &FlatField<'_>,
    second: &FlatField<'_>,
) -> Result<BadPair, AllocError>
    ensures { IfOk result (λ pair. pair
        ≡ spec.ordered_bad mode (info_in first.now.known) (info_in second.now.known)) }
{
    if is_before(first, second) {
        bad_of(mode, first, second)
    } else {
        bad_of(mode, second, first)
    }
}

/// Adds the bad pair of two fields, if there are two.
fn add_bad(
    mode: Mode,
    first: Option<&FlatField<'_>>,
    second: Option<&FlatField<'_>>,
    bad: &mut Vec<BadPair>,
) -> Result<(), AllocError>
    ensures { OnOk result (bad.new.items ≡ bad.old.items
        ++ spec.bad_if mode (option_copied first.entry) (option_copied second.entry)) }
{
    match first {
        Some(first) => match second {
            Some(second) => {
                bad.push(ordered_bad(mode, first, second)?)?;
                Ok(())
            }
            None => Ok(()),
        },
        None => Ok(()),
    }
}

/// Adds the bad pair of a pair of numbers.
fn add_bad_at(all: &[FlatField<'_>], pair: Pair, bad: &mut Vec<BadPair>) -> Result<(), AllocError>
    ensures { OnOk result (bad.new.items ≡ bad.old.items ++ spec.bad_at all.now pair) }
{
    let first = all.get(pair.first);
    let second = all.get(pair.second);
    add_bad(pair.mode, first, second, bad)?;
    Ok(())
}

/// The bad pairs of pairs of numbers.
pub fn bad_pairs(
    alloc: Global,
    all: &[FlatField<'_>],
    pairs: &[Pair],
) -> Result<Vec<BadPair>, AllocError>
    ensures { IfOk result (λ bad. bad.items ≡ flat_map (spec.bad_at all.now) pairs.now) }
{
    let mut bad = Vec::new(alloc);
    for pair in pairs {
        add_bad_at(all, *pair, &mut bad)?;
    }
    Ok(bad)
}
