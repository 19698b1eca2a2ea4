//! The types of a schema after an edit of a schema file, in the making.
ghost use Rattle.std.specs.Prelude.{◌≡◌, ◌++◌, ◌∷◌, [], IfOk, OnOk, None, map};
ghost use Rattle.std.specs.Option.{option_map_or};
ghost use Rattle.std.specs.HashMap as hash;
ghost use Rattle.gql_types.specs.EditedTypes.{type_by};
ghost use Rattle.gql_types.specs.Roles.{concrete_place, role_of};
ghost use Rattle.gql_types.specs.Sites.{site};

use crate::batched::{BatchList, Batched};
use crate::by_name::ByName;
use crate::made_types::made_type;
use crate::role::Role;
use crate::schema_type::SchemaType;
use crate::type_site::TypeSite;
use gql_ast::{Shared, TypeExtension};
use gql_built_in::Sited;
use std::alloc::{AllocError, Global};

/// Types in the making, in their order: those that an edit leaves as they are, and new ones.
#[derive(Drop)]
pub struct TypeList {
    pub types: BatchList<SchemaType>,
    /// The roles, in the order of the types.
    pub roles: Vec<Role>,
    /// For each type, where it stood before the edit, if the edit leaves it as it is and it is neither
    /// an interface nor a union: possible types of these change with others.
    pub places: Vec<Option<usize>>,
    /// The prints of the names.
    pub prints: Vec<u64>,
}

/// Where a type of this role stood, if it is neither an interface nor a union.
fn concrete_place(role: Role, stood: Option<usize>) -> Option<usize>
    ensures { result ≡ concrete_place role stood }
{
    match role {
        Role::Abstract => None,
        Role::Declaring | Role::Other => stood,
    }
}

impl TypeList {
    /// No types, with room for so many.
    pub fn with_capacity(alloc: Global, count: usize) -> Result<TypeList, AllocError>
        ensures types { IfOk result (λ list. list.types ≡ []) }
        ensures roles { IfOk result (λ list. list.roles.items ≡ []) }
        ensures places { IfOk result (λ list. list.places.items ≡ []) }
        ensures prints { IfOk result (λ list. list.prints.items ≡ []) }
    {
        Ok(TypeList {
            types: BatchList::with_capacity(alloc, count)?,
            roles: Vec::with_capacity(alloc, count)?,
            places: Vec::with_capacity(alloc, count)?,
            prints: Vec::with_capacity(alloc, count)?,
        })
    }

    /// Adds a type of this role that the edit leaves as it is, with where it stood and the print of
    /// its name.
    pub fn keep(
        &mut self,
        of_type: &Batched<SchemaType>,
        role: Role,
        stood: Option<usize>,
        print: u64,
    ) -> Result<(), AllocError>
        requires { role ≡ role_of of_type.now }
        ensures types { OnOk result (self.new.types ≡ self.old.types ++ of_type.now ∷ []) }
        ensures roles { OnOk result (self.new.roles.items
            ≡ self.old.roles.items ++ role_of of_type.now ∷ []) }
        ensures places { OnOk result (self.new.places.items
            ≡ self.old.places.items ++ concrete_place (role_of of_type.now) stood ∷ []) }
        ensures prints { OnOk result (self.new.prints.items
            ≡ self.old.prints.items ++ print ∷ []) }
    {
        self.types.keep(of_type)?;
        self.roles.push(role)?;
        self.places.push(concrete_place(role, stood))?;
        self.prints.push(print)?;
        Ok(())
    }

    /// Makes the type of a definition, with the extensions of its name and kind, and adds it with the
    /// print of its name.
    pub fn make(
        &mut self,
        alloc: Global,
        definition: &TypeSite<'_>,
        extensions: &ByName<'_, Sited<Shared<TypeExtension>>>,
        print: u64,
    ) -> Result<(), AllocError>
        ensures types { OnOk result (self.new.types ≡ self.old.types ++ type_by
            (λ q. option_map_or (λ group. map (λ x. x.now) group.items)
            (hash.get_by_text extensions.now q) []) (site definition.now) ∷ []) }
        ensures roles { OnOk result (self.new.roles.items ≡ self.old.roles.items ++ role_of (type_by
            (λ q. option_map_or (λ group. map (λ x. x.now) group.items)
            (hash.get_by_text extensions.now q) []) (site definition.now)) ∷ []) }
        ensures places { OnOk result (self.new.places.items ≡ self.old.places.items ++ None ∷ []) }
        ensures prints { OnOk result (self.new.prints.items
            ≡ self.old.prints.items ++ print ∷ []) }
    {
        let of_type = made_type(alloc, definition, extensions)?;
        self.roles.push(Role::of(&of_type))?;
        self.types.add(of_type)?;
        self.places.push(None)?;
        self.prints.push(print)?;
        Ok(())
    }

    /// The same, where the types beside it are not made: the type is a batch of its own, which is freed
    /// when another takes its place.
    pub fn make_alone(
        &mut self,
        alloc: Global,
        definition: &TypeSite<'_>,
        extensions: &ByName<'_, Sited<Shared<TypeExtension>>>,
        print: u64,
    ) -> Result<(), AllocError>
        ensures types { OnOk result (self.new.types ≡ self.old.types ++ type_by
            (λ q. option_map_or (λ group. map (λ x. x.now) group.items)
            (hash.get_by_text extensions.now q) []) (site definition.now) ∷ []) }
        ensures roles { OnOk result (self.new.roles.items ≡ self.old.roles.items ++ role_of (type_by
            (λ q. option_map_or (λ group. map (λ x. x.now) group.items)
            (hash.get_by_text extensions.now q) []) (site definition.now)) ∷ []) }
        ensures places { OnOk result (self.new.places.items ≡ self.old.places.items ++ None ∷ []) }
        ensures prints { OnOk result (self.new.prints.items
            ≡ self.old.prints.items ++ print ∷ []) }
    {
        let of_type = made_type(alloc, definition, extensions)?;
        let of_type = Batched::new(alloc, of_type)?;
        self.roles.push(Role::of(of_type.get()))?;
        self.types.keep(&of_type)?;
        self.places.push(None)?;
        self.prints.push(print)?;
        Ok(())
    }
}
