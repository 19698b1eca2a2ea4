//! Names in the order of their bytes, each once. After an edit, most of their runs are shared.
ghost use Rattle.std.specs.Prelude.{◌≡◌, ◌++◌, IfOk, filter, length, map, slice_get};
ghost use Rattle.std.specs.Option.{option_copied};
ghost use Rattle.gql_intro.specs.EditedNames.{is_kept};
ghost use Rattle.gql_intro.specs.Made.{is_shown};
ghost use Rattle.gql_types.specs.Possible as spec;

use crate::edited_names::{all_in_order, shown_in_order};
use crate::edited_runs::edited_runs;
use crate::runs::Runs;
use gql_ast::Text;
use gql_types::Named;
use std::alloc::{AllocError, Global};
use std::marker::Model;

/// Names in the order of their bytes, each once. Contracts see the list of the names.
#[derive(Drop)]
pub struct SortedNames {
    runs: Runs,
}

impl Model for SortedNames {
    ghost use Rattle.std.specs.Prelude.{List, ℕ};
    ghost use Rattle.gql_intro.specs.SortedNames.{AreSorted};

    ghost Value = { List (List ℕ) };

    ghost view = { λ s. s.runs };

    ghost invariant = { λ s. AreSorted s.runs };
}

/// These names in the order of their bytes, each once.
pub fn in_order(names: Vec<&str>) -> Result<Vec<&str>, AllocError>
    ensures { IfOk result (λ found. map (λ n. n.now) found.items
        ≡ spec.in_order (map (λ n. n.now) names.entry.items)) }
{
    let mut names = names;
    names.sort()?;
    names.dedup();
    Ok(names)
}

impl SortedNames {
    /// Copies of these names.
    pub(crate) fn new(alloc: Global, names: Vec<&str>) -> Result<SortedNames, AllocError>
        ensures { IfOk result (λ found. found
            ≡ spec.in_order (map (λ n. n.now) names.entry.items)) }
    {
        let names = in_order(names)?;
        let mut runs = Runs::new(alloc);
        runs.add(alloc, names.as_slice())?;
        Ok(SortedNames { runs })
    }

    /// How many names there are.
    pub(crate) fn len(&self) -> usize
        ensures { result ≡ length self.now }
    {
        self.runs.len()
    }

    /// The name at a place.
    pub(crate) fn get(&self, index: usize) -> Option<&Text>
        ensures { option_copied result ≡ slice_get self.now index }
    {
        self.runs.get(index)
    }

    /// The names after some are gone and others came, of which those are added that introspection
    /// shows. Runs that none of these names falls into are shared.
    pub(crate) fn after_edit(
        &self,
        alloc: Global,
        gone: &Named<Text>,
        came: &[Text],
        has_int: bool,
        has_id: bool,
        has_float: bool,
    ) -> Result<SortedNames, AllocError>
        ensures { IfOk result (λ found. found ≡ spec.in_order (filter (is_kept gone.now) self.now
            ++ filter (is_shown has_int has_id has_float) came.now)) }
    {
        let went = all_in_order(alloc, gone.as_slice())?;
        let shown = shown_in_order(alloc, came, has_int, has_id, has_float)?;
        let runs = self.runs.runs();
        let runs = edited_runs(alloc, runs, gone, went.as_slice(), shown.as_slice())?;
        Ok(SortedNames { runs })
    }
}
