//! Definitions of types, where they stand.
ghost use Rattle.std.specs.Prelude.{◌≡◌, IfOk};
ghost use Rattle.std.specs.Option.{option_copied};
ghost use Rattle.gql_types.specs.Sites.{site};

use crate::named::HasName;
use gql_ast::{FileName, Shared, TypeDefinition};
use gql_built_in::{Sited, SourceFile};
use std::alloc::AllocError;

/// The definition of a type, where it stands, with the file that it is in. Built-in ones have none.
#[derive(Clone, Copy)]
pub struct TypeSite<'d> {
    pub file: Option<&'d FileName>,
    pub node: &'d Shared<TypeDefinition>,
}

impl<'d> HasName for TypeSite<'d> {
    ghost name = { λ s. s.node.now.name.text };

    fn name(&self) -> &str {
        self.node.get().name.as_str()
    }
}

/// The file of a definition, which shares the text of its name.
pub fn source_of(file: Option<&FileName>) -> Result<SourceFile, AllocError>
    ensures { IfOk result (λ source. source ≡ option_copied file.entry) }
{
    match file {
        Some(file) => {
            let name = file.copy()?;
            Ok(Some(name))
        }
        None => Ok(None),
    }
}

impl<'d> TypeSite<'d> {
    /// The definition, which is shared, and so is the text of the name of its file.
    pub fn shared(&self) -> Result<Sited<Shared<TypeDefinition>>, AllocError>
        ensures { IfOk result (λ definition. definition ≡ site self.now) }
    {
        Ok(Sited {
            file: source_of(self.file)?,
            node: self.node.clone()?,
        })
    }
}
