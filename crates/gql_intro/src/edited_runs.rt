//! The runs of sorted names after some names are gone and others came.
ghost use Rattle.std.specs.Prelude.{◌≡◌, ◌++◌, ◌≤◌, ℕ, List, Contains, IfOk, OnOk, IsTrue, ◌↔◌, drop, filter, length, take};
ghost use Rattle.std.specs.declared.cmp.Ordering.TheVariants.{Less};
ghost use Rattle.gql_ast.specs.FileMaps.{name_order};
ghost use Rattle.gql_intro.specs.EditedNames.{is_kept};
ghost use Rattle.gql_intro.specs.Runs.{names_of};
ghost use Rattle.gql_intro.specs.SortedNames.{AreBefore, AreSorted};
ghost use Rattle.gql_types.specs.Possible as spec;

use crate::edited_names::{add_all, add_kept, are_none};
use crate::runs::{Run, Runs};
use crate::sorted_names::in_order;
use gql_ast::Text;
use gql_types::Named;
use std::alloc::{AllocError, Global};
use std::cmp::Ordering;

/// Whether a name is before another.
fn is_before(name: &Text, other: &Text) -> bool
    ensures { IsTrue result ↔ name_order name.now other.now ≡ Less }
{
    matches!(name.cmp(other), Ordering::Less)
}

/// How many of these sorted names are not after this one.
fn count_to(last: &Text, names: &[Text]) -> usize
    requires { AreSorted names.now }
    ensures few { result ≤ length names.now }
    ensures taken { (n : List ℕ) → Contains (take result names.now) n
        → name_order last.now n ≡ Less → ⊥ }
    ensures later { (n : List ℕ) → Contains (drop result names.now) n
        → name_order last.now n ≡ Less }
{
    for count in 0..names.len() {
        if is_before(last, &names[count]) {
            return count;
        }
    }
    names.len()
}

/// How many of these sorted names belong to a run, which these later runs follow: those up to its
/// last name, or all if it is the last run.
fn count_in(run: &Run, later: &[Run], names: &[Text]) -> usize
    requires names { AreSorted names.now }
    requires runs { AreSorted (run.now.names ++ names_of later.now) }
    ensures few { result ≤ length names.now }
    ensures taken { AreBefore (take result names.now) (names_of later.now) }
    ensures later { AreBefore run.now.names (drop result names.now) }
{
    if later.is_empty() {
        return names.len();
    }
    match run.names().last() {
        Some(last) => count_to(last, names),
        None => 0,
    }
}

/// Adds the names of a run that are not gone, and those that came to it. If none came or went, the
/// run is shared.
fn add_run(
    alloc: Global,
    run: &Run,
    gone: &Named<Text>,
    went: &[Text],
    came: &[Text],
    made: &mut Runs,
) -> Result<(), AllocError>
    requires run { AreSorted run.now.names }
    requires went { (n : List ℕ) → Contains run.now.names n → Contains gone.now n
        → Contains went.now n }
    ensures { OnOk result (made.new ≡ made.old
        ++ spec.in_order (filter (is_kept gone.now) run.now.names ++ came.now)) }
{
    if are_none(went) && are_none(came) {
        return made.share(run);
    }
    let mut names = Vec::with_capacity(alloc, run.names().len())?;
    add_kept(run.names(), gone, &mut names)?;
    add_all(came, &mut names)?;
    let names = in_order(names)?;
    made.add(alloc, names.as_slice())
}

/// Adds these sorted names.
fn add_sorted(alloc: Global, came: &[Text], made: &mut Runs) -> Result<(), AllocError>
    ensures { OnOk result (made.new ≡ made.old ++ came.now) }
{
    let mut names = Vec::with_capacity(alloc, came.len())?;
    add_all(came, &mut names)?;
    made.add(alloc, names.as_slice())
}

/// The runs of sorted names after some are gone and others came, where `went` are the names that are
/// gone, and both are sorted. Runs that none of these names falls into are shared.
pub fn edited_runs(
    alloc: Global,
    runs: &[Run],
    gone: &Named<Text>,
    went: &[Text],
    came: &[Text],
) -> Result<Runs, AllocError>
    requires runs { AreSorted (names_of runs.now) }
    requires went { AreSorted went.now }
    requires came { AreSorted came.now }
    requires gone { (n : List ℕ) → Contains gone.now n → Contains went.now n }
    ensures { IfOk result (λ made. made
        ≡ spec.in_order (filter (is_kept gone.now) (names_of runs.now) ++ came.entry.now)) }
{
    let mut made = Runs::new(alloc);
    let mut went = went;
    let mut came = came;
    for i in 0..runs.len() {
        let run = &runs[i];
        let later = &runs[i + 1..];
        let (went_here, went_later) = went.split_at(count_in(run, later, went));
        let (came_here, came_later) = came.split_at(count_in(run, later, came));
        add_run(alloc, run, gone, went_here, came_here, &mut made)?;
        went = went_later;
        came = came_later;
    }
    add_sorted(alloc, came, &mut made)?;
    Ok(made)
}
