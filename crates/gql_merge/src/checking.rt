//! The faults of pairs of fields by both rules on the merging of fields.
ghost use Rattle.std.specs.Prelude.{◌≡◌, ◌++◌, IfOk, OnOk, flat_map};
ghost use Rattle.std.specs.Option.{option_copied};
ghost use Rattle.gql_merge.specs.Known.{info_in};
ghost use Rattle.gql_merge.specs.PairFaults.{faults_if, faults_of, pair_faults};

use crate::flat::FlatField;
use crate::{v05_different_calls, v06_different_shapes};
use gql_ast::{Fault, FilePlace, Shared};
use gql_clashes::{Mode, Pair};
use std::alloc::{AllocError, Global};

/// Adds the faults of two fields.
fn check_fields(
    alloc: Global,
    owner: &FilePlace,
    mode: Mode,
    first: &FlatField<'_>,
    second: &FlatField<'_>,
    faults: &mut Vec<Shared<Fault>>,
) -> Result<(), AllocError>
    ensures { OnOk result (faults.new.items ≡ faults.old.items
        ++ faults_of owner.now mode (info_in first.now.known) (info_in second.now.known)) }
{
    v05_different_calls::check(alloc, owner, mode, first, second, faults)?;
    v06_different_shapes::check(alloc, owner, first, second, faults)?;
    Ok(())
}

/// Adds the faults of two fields, if there are two.
fn check_two(
    alloc: Global,
    owner: &FilePlace,
    mode: Mode,
    first: Option<&FlatField<'_>>,
    second: Option<&FlatField<'_>>,
    faults: &mut Vec<Shared<Fault>>,
) -> Result<(), AllocError>
    ensures { OnOk result (faults.new.items ≡ faults.old.items
        ++ faults_if owner.now mode (option_copied first.entry) (option_copied second.entry)) }
{
    match first {
        Some(first) => match second {
            Some(second) => {
                check_fields(alloc, owner, mode, first, second, faults)?;
                Ok(())
            }
            None => Ok(()),
        },
        None => Ok(()),
    }
}

/// Adds the faults of a pair of numbers.
fn check_pair(
    alloc: Global,
    owner: &FilePlace,
    all: &[FlatField<'_>],
    pair: Pair,
    faults: &mut Vec<Shared<Fault>>,
) -> Result<(), AllocError>
    ensures { OnOk result (faults.new.items
        ≡ faults.old.items ++ pair_faults owner.now all.now pair) }
{
    let first = all.get(pair.first);
    let second = all.get(pair.second);
    check_two(alloc, owner, pair.mode, first, second, faults)?;
    Ok(())
}

/// The faults of pairs of numbers.
pub fn check_pairs(
    alloc: Global,
    owner: &FilePlace,
    all: &[FlatField<'_>],
    pairs: &[Pair],
) -> Result<Vec<Shared<Fault>>, AllocError>
    ensures { IfOk result (λ faults. faults.items
        ≡ flat_map (pair_faults owner.now all.now) pairs.now) }
{
    let mut faults = Vec::new(alloc);
    for pair in pairs {
        check_pair(alloc, owner, all, *pair, &mut faults)?;
    }
    Ok(faults)
}
