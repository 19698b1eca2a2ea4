//! What the rules may ask of files: the facts of their schema, and their fragments.
ghost use Rattle.std.specs.Prelude.{◌≡◌, IfOk};
ghost use Rattle.gql_ast.specs.declared.files.Files.{Files as TheFiles};
ghost use Rattle.gql_registry.specs.FilesFacts.{AreFilesFacts};
ghost use Rattle.gql_registry.specs.Keeping.{IsKnownOf};

use crate::report::{Known, SchemaSide};
use gql_ast::Shared;
use gql_facts::{Fragments, Present};
use std::alloc::AllocError;

/// The facts of the schema of files, and the fragments of their documents. It shares them with what
/// they are taken from.
#[derive(Drop)]
pub struct FilesFacts {
    schema: Shared<SchemaSide>,
    fragments: Fragments,
}

/// The facts and the fragments of files, from what is known of them.
pub fn facts_in(known: &Known) -> Result<FilesFacts, AllocError>
    ensures { IfOk result (λ facts. (files : TheFiles) → IsKnownOf files known.now
        → AreFilesFacts files facts) }
{
    let schema = known.schema.clone()?;
    let fragments = known.index.fragments.copy()?;
    Ok(FilesFacts { schema, fragments })
}

impl FilesFacts {
    ghost use Rattle.std.specs.Prelude.{◌≡◌};
    ghost use Rattle.gql_ast.specs.declared.files.Files.{Files as TheFiles};
    ghost use Rattle.gql_facts.specs.Facts.{fact_of};
    ghost use Rattle.gql_facts.specs.Presents.{facts_of_present};
    ghost use Rattle.gql_registry.specs.FilesFacts.{AreFilesFacts};

    /// The world of the files.
    pub fn world(&self) -> Present<'_>
        ensures { (files : TheFiles) → AreFilesFacts files self.now
            → facts_of_present result ≡ fact_of files }
    {
        Present::new(&self.schema.get().facts, &self.fragments)
    }
}
