//! Which definitions were examined.
ghost use Rattle.std.specs.Prelude.{◌≡◌, ◌++◌, ◌∷◌, [], OnOk, OnErr};

use gql_ast::DefinitionId;
use std::alloc::{AllocError, Global};
use std::marker::Model;

/// The definitions that were examined, in the order in which they were. Contracts see their list.
pub struct Meter {
    entries: Vec<DefinitionId>,
}

impl Drop for Meter {
    fn drop(self) {
        let Meter { entries: _ } = self;
    }
}

impl Model for Meter {
    ghost use Rattle.std.specs.Prelude.{List};
    ghost use Rattle.gql_ast.specs.declared.definition.DefinitionId.{DefinitionId};

    ghost Value = { List DefinitionId };

    ghost view = { λ m. m.entries.items };
}

impl Meter {
    /// A meter with no entries.
    pub fn new(alloc: Global) -> Meter
        ensures { result ≡ [] }
    {
        Meter {
            entries: Vec::new(alloc),
        }
    }

    /// The definitions that were examined.
    pub fn entries(&self) -> &[DefinitionId]
        ensures { result.now ≡ self.now }
    {
        self.entries.as_slice()
    }

    /// Adds a definition.
    pub(crate) fn add(&mut self, id: DefinitionId) -> Result<(), AllocError>
        ensures ok { OnOk result (self.new ≡ self.old ++ id ∷ []) }
        ensures err { OnErr result (self.new ≡ self.old) }
    {
        self.entries.push(id)?;
        Ok(())
    }
}
