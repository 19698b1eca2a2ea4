//! Lists of names in runs. Lists that differ little share most of their runs.
ghost use Rattle.std.specs.Prelude.{◌≡◌, ◌++◌, ◌+◌, ◌-◌, ◌≤◌, ◌<◌, [], IfOk, OnOk, length, map, slice_get, take};
ghost use Rattle.std.specs.Option.{option_copied};
ghost use Rattle.gql_intro.specs.Runs.{AreCounted, names_of};

use gql_ast::{Items, Shared, Text};
use std::alloc::{AllocError, Global};
use std::marker::Model;

/// A new run has at most so many names.
const LONGEST: usize = 512;

/// Names of a list that follow one another.
#[derive(Drop)]
pub struct Run {
    names: Shared<Items<Text>>,
    /// How many names the list has up to the end of the run.
    end: usize,
}

/// A list of names in runs, which contracts see as the list of the names.
#[derive(Drop)]
pub struct Runs {
    runs: Vec<Run>,
    /// How many names there are.
    count: usize,
}

impl Model for Runs {
    ghost use Rattle.std.specs.Prelude.{◌≡◌, List, ℕ, length};
    ghost use Rattle.gql_intro.specs.Runs.{AreCounted, names_of};

    ghost Value = { List (List ℕ) };

    ghost view = { λ r. names_of r.runs.items };

    ghost invariant = { λ r. (r.count ≡ length (names_of r.runs.items))
        × AreCounted 0 r.runs.items };
}

/// A run of copies of these names.
fn copies(alloc: Global, names: &[&str]) -> Result<Shared<Items<Text>>, AllocError>
    ensures { IfOk result (λ found. found ≡ map (λ n. n.now) names.now) }
{
    let mut found = Items::from_vec(Vec::with_capacity(alloc, names.len())?);
    for name in names {
        found.push(Text::from_str(alloc, name)?)?;
    }
    Shared::new(alloc, found)
}

/// How long new runs are that have so many names together: all about the same.
fn run_length(count: usize) -> usize
    ensures { 0 < result }
{
    count.div_ceil(count / LONGEST + 1).max(1)
}

/// The first run that ends after a place of the list; past the last if there is none.
fn run_of(runs: &[Run], index: usize) -> usize
    requires { AreCounted 0 runs.now }
    ensures before { length (names_of (take result runs.now)) ≤ index }
    ensures within { result < length runs.now
        → index < length (names_of (take (result + 1) runs.now)) }
    ensures few { result ≤ length runs.now }
{
    let mut low = 0;
    let mut high = runs.len();
    'search: while low < high {
        let middle = low + (high - low) / 2;
        if runs[middle].end <= index {
            low = middle + 1;
        } else {
            high = middle;
        }
    }
    low
}

/// The name at a place of the list.
fn name_at(runs: &[Run], index: usize) -> Option<&Text>
    requires { AreCounted 0 runs.now }
    ensures { option_copied result ≡ slice_get (names_of runs.now) index }
{
    match runs.get(run_of(runs, index)) {
        Some(run) => run.get(index),
        None => None,
    }
}

impl Run {
    /// The names.
    pub fn names(&self) -> &[Text]
        ensures { result.now ≡ self.now.names }
    {
        self.names.get().as_slice()
    }

    /// The name at a place of the list, which is not before the run.
    fn get(&self, index: usize) -> Option<&Text>
        requires counted { length self.now.names ≤ self.now.end }
        requires after { self.now.end - length self.now.names ≤ index }
        ensures { option_copied result
            ≡ slice_get self.now.names (index - (self.now.end - length self.now.names)) }
    {
        let names = self.names.get();
        names.get(index - (self.end - names.len()))
    }
}

impl Runs {
    /// No names.
    pub fn new(alloc: Global) -> Runs
        ensures { result ≡ [] }
    {
        Runs {
            runs: Vec::new(alloc),
            count: 0,
        }
    }

    /// The runs, in their order.
    pub fn runs(&self) -> &[Run]
        ensures { names_of result.now ≡ self.now }
    {
        self.runs.as_slice()
    }

    /// How many names there are.
    pub fn len(&self) -> usize
        ensures { result ≡ length self.now }
    {
        self.count
    }

    /// The name at a place.
    pub fn get(&self, index: usize) -> Option<&Text>
        ensures { option_copied result ≡ slice_get self.now index }
    {
        name_at(self.runs.as_slice(), index)
    }

    /// Adds a run at the end.
    fn push(&mut self, names: Shared<Items<Text>>) -> Result<(), AllocError>
        ensures { OnOk result (self.new ≡ self.old ++ names) }
    {
        let Some(end) = self.count.checked_add(names.get().len()) else {
            return Err(AllocError);
        };
        self.runs.push(Run { names, end })?;
        self.count = end;
        Ok(())
    }

    /// Adds a run of another list at the end. Both lists share it.
    pub fn share(&mut self, run: &Run) -> Result<(), AllocError>
        ensures { OnOk result (self.new ≡ self.old ++ run.now.names) }
    {
        let names = run.names.clone()?;
        self.push(names)
    }

    /// Adds copies of these names at the end, in new runs.
    pub fn add(&mut self, alloc: Global, names: &[&str]) -> Result<(), AllocError>
        ensures { OnOk result (self.new ≡ self.old ++ map (λ n. n.now) names.now) }
    {
        let size = run_length(names.len());
        let mut from = 0;
        'pieces: while from < names.len() {
            let to = from + size.min(names.len() - from);
            let piece = copies(alloc, &names[from..to])?;
            self.push(piece)?;
            from = to;
        }
        Ok(())
    }
}
