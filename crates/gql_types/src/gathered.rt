//! The definitions of a schema (GraphQL specification, 3.1), gathered in one walk.
ghost use Rattle.std.specs.Prelude.{◌≡◌, ◌++◌, ◌∷◌, [], IfOk, OnOk, map};
ghost use Rattle.std.specs.Option.{option_copied};
ghost use Rattle.gql_ast.specs.declared.definition.Tree.TheVariants as tree;
ghost use Rattle.gql_types.specs.Definitions as spec;
ghost use Rattle.gql_types.specs.Sites.{others_in, site};

use crate::type_site::{TypeSite, source_of};
use gql_ast::{Definition, Document, FileName, Files, Items, Shared, Tree, TypeDefinition};
use gql_built_in::{Sited, name_of_source};
use std::alloc::{AllocError, Global};

/// The definitions of types, where they stand, and all definitions that are not of types. That of
/// Float in a file is neither.
#[derive(Drop)]
pub struct Gathered<'d> {
    pub types: Vec<TypeSite<'d>>,
    pub others: Items<Sited<Tree>>,
}

/// Whether a definition of this name, in this file, is that of a type: not that of Float in a file.
fn names_a_type(file: Option<&FileName>, name: &str) -> bool
    ensures { result ≡ spec.names_a_type (option_copied file.entry) name.now }
{
    match file {
        Some(_) => name != "Float",
        None => true,
    }
}

impl<'d> Gathered<'d> {
    /// Adds the definition of a type, unless it is that of Float in a file.
    fn add_type(
        &mut self,
        file: Option<&'d FileName>,
        node: &'d Shared<TypeDefinition>,
    ) -> Result<(), AllocError>
        ensures types { OnOk result (map site self.new.types.items ≡ map site self.old.types.items
            ++ spec.type_in (option_copied file.entry) (tree.Type node.now)) }
        ensures others { self.new.others ≡ self.old.others }
    {
        if names_a_type(file, node.get().name.as_str()) {
            self.types.push(TypeSite { file, node })?;
        }
        Ok(())
    }

    /// Adds a definition that is not of a type.
    fn add_other(&mut self, file: Option<&FileName>, tree: &Tree) -> Result<(), AllocError>
        ensures types { self.new.types ≡ self.old.types }
        ensures others { OnOk result (self.new.others ≡ self.old.others
            ++ (record { file = option_copied file.entry; node = tree.now }) ∷ []) }
    {
        self.others.push(Sited {
            file: source_of(file)?,
            node: tree.copy()?,
        })?;
        Ok(())
    }

    /// Adds a definition.
    fn add(&mut self, file: Option<&'d FileName>, tree: &'d Tree) -> Result<(), AllocError>
        ensures types { OnOk result (map site self.new.types.items ≡ map site self.old.types.items
            ++ spec.type_in (option_copied file.entry) tree.now) }
        ensures others { OnOk result (self.new.others ≡ self.old.others
            ++ others_in ((record { file = option_copied file.entry; node = tree.now }) ∷ [])) }
    {
        match tree {
            Tree::Type(node) => self.add_type(file, node),
            _ => self.add_other(file, tree),
        }
    }

    /// Adds the built-in definitions.
    fn add_built_in(&mut self, definitions: &'d [Sited<Tree>]) -> Result<(), AllocError>
        ensures types { OnOk result (map site self.new.types.items ≡ map site self.old.types.items
            ++ spec.type_definitions definitions.now) }
        ensures others { OnOk result (self.new.others ≡ self.old.others
            ++ others_in definitions.now) }
    {
        for definition in definitions {
            self.add(name_of_source(&definition.file), &definition.node)?;
        }
        Ok(())
    }

    /// Adds the definitions of a file.
    fn add_file(&mut self, definitions: &'d [Definition]) -> Result<(), AllocError>
        ensures types { OnOk result (map site self.new.types.items ≡ map site self.old.types.items
            ++ spec.type_definitions (spec.in_order_of definitions.now)) }
        ensures others { OnOk result (self.new.others ≡ self.old.others
            ++ others_in (spec.in_order_of definitions.now)) }
    {
        for definition in definitions {
            self.add(Some(&definition.file), &definition.tree)?;
        }
        Ok(())
    }

    /// No definitions.
    fn none(alloc: Global) -> Gathered<'d>
        ensures types { result.types.items ≡ [] }
        ensures others { result.others ≡ [] }
    {
        Gathered {
            types: Vec::new(alloc),
            others: Items::new(alloc),
        }
    }

    /// The built-in definitions.
    pub fn of_built_in(
        alloc: Global,
        definitions: &'d [Sited<Tree>],
    ) -> Result<Gathered<'d>, AllocError>
        ensures types { IfOk result (λ found. map site found.types.items
            ≡ spec.type_definitions definitions.now) }
        ensures others { IfOk result (λ found. found.others ≡ others_in definitions.now) }
    {
        let mut found = Gathered::none(alloc);
        found.add_built_in(definitions)?;
        Ok(found)
    }

    /// The definitions of a file.
    pub fn of_file(alloc: Global, document: &'d Document) -> Result<Gathered<'d>, AllocError>
        ensures types { IfOk result (λ found. map site found.types.items
            ≡ spec.type_definitions (spec.in_order_of document.now.definitions)) }
        ensures others { IfOk result (λ found. found.others
            ≡ others_in (spec.in_order_of document.now.definitions)) }
    {
        let mut found = Gathered::none(alloc);
        found.add_file(document.definitions.as_slice())?;
        Ok(found)
    }
}

/// The definitions of the schema files, after the built-in ones.
pub fn gather<'d>(
    alloc: Global,
    built_in: &'d [Sited<Tree>],
    files: &'d Files,
) -> Result<Gathered<'d>, AllocError>
    ensures types { IfOk result (λ found. map site found.types.items
        ≡ spec.type_definitions (built_in.now ++ spec.of_files files.now.schema)) }
    ensures others { IfOk result (λ found. found.others
        ≡ others_in (built_in.now ++ spec.of_files files.now.schema)) }
{
    let mut found = Gathered::none(alloc);
    found.add_built_in(built_in)?;
    for (_name, document) in files.schema.entries().iter() {
        found.add_file(document.get().definitions.as_slice())?;
    }
    Ok(found)
}
