//! The types of a schema, each with its role.
ghost use Rattle.std.specs.Prelude.{◌≡◌, IfOk, map, option_and_then, slice_get, Some};
ghost use Rattle.gql_types.specs.Roles.{role_of};
ghost use Rattle.gql_types.specs.declared.schema_type.SchemaType.{SchemaType as TheType};

use crate::batched::Batched;
use crate::named::Named;
use crate::role::Role;
use crate::schema_type::SchemaType;
use std::alloc::{AllocError, Global};
use std::marker::Model;

/// The types of a schema, with a look-up by their names, and the role of each. Contracts see the list
/// of the types.
pub struct Types {
    named: Named<Batched<SchemaType>>,
    /// The roles, in the order of the types.
    roles: Vec<Role>,
}

impl Drop for Types {
    fn drop(self) {
        let Types { named: _, roles: _ } = self;
    }
}

impl Model for Types {
    ghost use Rattle.std.specs.Prelude.{◌≡◌, List, map};
    ghost use Rattle.std.specs.Coded.{codes, coded_list};
    ghost use Rattle.gql_types.specs.Roles.{role_of};
    ghost use Rattle.gql_types.specs.contracts.schema_type.SchemaType as one;
    ghost use Rattle.gql_types.specs.declared.schema_type.SchemaType.{SchemaType};

    ghost Value = { List SchemaType };

    ghost coded = { Prim.hlevel (codes, one.the_row.coded) };

    ghost view = { λ t. t.named };

    ghost invariant = { λ t. t.roles.items ≡ map role_of t.named };
}

/// The roles of types.
fn roles_of(alloc: Global, types: &[Batched<SchemaType>]) -> Result<Vec<Role>, AllocError>
    ensures { IfOk result (λ roles. roles.items ≡ map role_of types.now) }
{
    let mut roles = Vec::with_capacity(alloc, types.len())?;
    for of_type in types {
        roles.push(Role::of(of_type.get()))?;
    }
    Ok(roles)
}

impl Types {
    /// These types.
    pub fn new(alloc: Global, types: Vec<Batched<SchemaType>>) -> Result<Types, AllocError>
        ensures { IfOk result (λ all. all ≡ types.items) }
    {
        let roles = roles_of(alloc, types.as_slice())?;
        let named = Named::new(alloc, types)?;
        Ok(Types { named, roles })
    }

    /// These types, whose roles these are.
    pub fn of(named: Named<Batched<SchemaType>>, roles: Vec<Role>) -> Types
        requires { roles.items ≡ map role_of named }
        ensures { result ≡ named }
    {
        Types { named, roles }
    }

    /// The types, with a look-up by their names.
    pub fn named(&self) -> &Named<Batched<SchemaType>>
        ensures { result.now ≡ self.now }
    {
        &self.named
    }

    /// The roles, in the order of the types.
    pub fn roles(&self) -> &[Role]
        ensures { result.now ≡ map role_of self.now }
    {
        self.roles.as_slice()
    }

    /// The role of the type at this place.
    pub fn role_at(&self, place: Option<usize>) -> Role
        ensures { (t : TheType) → option_and_then (λ i. slice_get self.now i) place ≡ Some t
            → result ≡ role_of t }
    {
        match place {
            Some(place) => match self.roles.get(place) {
                Some(role) => *role,
                None => Role::Other,
            },
            None => Role::Other,
        }
    }
}
