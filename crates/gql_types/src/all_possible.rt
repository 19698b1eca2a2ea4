//! The possible types of all composite types.
ghost use Rattle.std.specs.Prelude.{◌≡◌, IfOk, bytes_eq, find, map, option_map};
ghost use Rattle.std.specs.Option.{option_copied};
ghost use Rattle.gql_types.specs.Names.{AreOnce};
ghost use Rattle.gql_types.specs.Possible as spec;

use crate::batched::Batched;
use crate::kind::TypeKind;
use crate::named::Named;
use crate::possible::{PossibleTypes, all_abstract};
use crate::schema_type::SchemaType;
use crate::types::Types;
use gql_ast::Text;
use std::alloc::{AllocError, Global};
use std::marker::Model;
use std::slice;

/// The possible types of the composite types of a schema. Contracts see the list of these, each with
/// its possible types; here those of interfaces and unions alone are held, as an object stands for
/// itself.
pub struct AllPossible {
    types: Named<Batched<SchemaType>>,
    abstracts: Named<PossibleTypes>,
}

impl Drop for AllPossible {
    fn drop(self) {
        let AllPossible {
            types: _,
            abstracts: _,
        } = self;
    }
}

impl Model for AllPossible {
    ghost use Rattle.std.specs.Prelude.{◌≡◌, List, map};
    ghost use Rattle.std.specs.Coded.{codes};
    ghost use Rattle.gql_types.specs.Abstracts.{all_abstract};
    ghost use Rattle.gql_types.specs.Names.{AreOnce};
    ghost use Rattle.gql_types.specs.Possible.{all_possible, name_of};
    ghost use Rattle.gql_types.specs.contracts.possible.PossibleTypes as one;
    ghost use Rattle.gql_types.specs.declared.possible.PossibleTypes.{PossibleTypes};

    ghost Value = { List PossibleTypes };

    ghost coded = { Prim.hlevel (codes, one.the_row.coded) };

    ghost view = { λ p. all_possible p.types };

    ghost invariant = { λ p. (p.abstracts ≡ all_abstract p.types)
        × AreOnce (map name_of p.types) };
}

impl AllPossible {
    /// The possible types of the composite types among these.
    pub fn new(alloc: Global, types: &Types) -> Result<AllPossible, AllocError>
        requires { AreOnce (map spec.name_of types.now) }
        ensures { IfOk result (λ possible. possible ≡ spec.all_possible types.now) }
    {
        let abstracts = Named::new(alloc, all_abstract(alloc, types)?)?;
        Ok(AllPossible {
            types: types.named().copy()?,
            abstracts,
        })
    }

    /// The possible types of the composite type of that name. They are soon found if the type is at
    /// this place among the types.
    pub fn get_near(&self, place: usize, name: &str) -> Option<&[Text]>
        ensures { option_copied result ≡ option_map (λ p. p.types)
            (find (λ p. bytes_eq name.now p.of_type) self.now) }
    {
        let Some(of_type) = self.types.get_near(place, name) else {
            return None;
        };
        let of_type = of_type.get();
        match of_type.kind {
            TypeKind::Object => Some(slice::from_ref(&of_type.definition.node.get().name.text)),
            _ => match self.abstracts.get(name) {
                Some(possible) => Some(possible.types.as_slice()),
                None => None,
            },
        }
    }

    /// The possible types of the composite type of that name.
    pub fn get(&self, name: &str) -> Option<&[Text]>
        ensures { option_copied result ≡ option_map (λ p. p.types)
            (find (λ p. bytes_eq name.now p.of_type) self.now) }
    {
        self.get_near(0, name)
    }
}
