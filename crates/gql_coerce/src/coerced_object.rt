//! Objects of coerced values, the members of which may be shared.
ghost use Rattle.std.specs.Prelude.{◌≡◌, string_bytes, option_map, IfOk, OnOk};
ghost use Rattle.serde_json.specs.Data.{object, put};
ghost use Rattle.serde_json.specs.Find.{get as member_of, get_member};
ghost use Rattle.serde_json.specs.View.{view, members_view};

use crate::coerced_parts::CoercedMembers;
use crate::coerced_value::CoercedValue;
use crate::members::add_member;
use gql_ast::Shared;
use serde_json::{Map, Value};
use std::alloc::{AllocError, Global};
use std::marker::Model;

/// The values of variables or of arguments, by their names: an object, as contracts see it. The
/// value of a variable is shared by the arguments that it is given for.
#[derive(Drop)]
pub struct CoercedObject {
    members: Map<String, Shared<CoercedValue>>,
}

impl Model for CoercedObject {
    ghost use Rattle.serde_json.specs.contracts.value.Value as json_value;
    ghost use Rattle.serde_json.specs.declared.value.Value.{Value as AValue, Object};
    ghost use Rattle.std.specs.Coded.{codes};

    ghost Value = { AValue };

    ghost coded = { Prim.hlevel (codes, json_value.the_row.coded) };

    ghost view = { λ o. Object o.members };
}

/// The member of this name.
fn member_in<'m>(
    members: &'m Map<String, Shared<CoercedValue>>,
    name: &str,
) -> Option<&'m Shared<CoercedValue>>
    ensures { option_map (λ v. view v.now) result
        ≡ get_member name.now (members_view members.now.entries) }
{
    members.get(name)
}

/// Copies of these members.
fn copies_of(
    alloc: Global,
    members: &Map<String, Shared<CoercedValue>>,
) -> Result<CoercedMembers, AllocError>
    ensures { IfOk result (λ copies. members_view copies ≡ members_view members.now.entries) }
{
    let mut copies = CoercedMembers::new(alloc);
    for (name, value) in members.iter() {
        let copy = value.get().copied(alloc)?;
        add_member(alloc, name.as_str(), copy, &mut copies)?;
    }
    Ok(copies)
}

/// Adds a member, in place of one of that name.
#[tactic(auto, using(crate::proofs::Inserted::inserted))]
pub fn add_shared(
    alloc: Global,
    name: &str,
    value: Shared<CoercedValue>,
    members: &mut Map<String, Shared<CoercedValue>>,
) -> Result<(), AllocError>
    ensures { OnOk result (members_view members.new.entries
        ≡ put name.now (view value) (members_view members.old.entries)) }
{
    let name = String::from_str(alloc, name)?;
    members.insert(name, value)?;
    Ok(())
}

impl CoercedObject {
    /// The object of these members.
    pub fn new(members: Map<String, Shared<CoercedValue>>) -> CoercedObject
        ensures { view result ≡ object (members_view members.entries) }
    {
        CoercedObject { members }
    }

    /// The members, by their names.
    pub fn members(&self) -> &Map<String, Shared<CoercedValue>>
        ensures { view self.now ≡ object (members_view result.now.entries) }
    {
        &self.members
    }

    /// The value of the member of this name, which others may share.
    pub fn shared(&self, name: &str) -> Option<&Shared<CoercedValue>>
        ensures { option_map (λ v. view v.now) result ≡ member_of name.now (view self.now) }
    {
        member_in(&self.members, name)
    }

    /// The value of the member of this name.
    pub fn get(&self, name: &str) -> Option<&Value>
        ensures { option_map (λ v. view v.now) result ≡ member_of name.now (view self.now) }
    {
        match self.shared(name) {
            Some(value) => Some(value.get().get()),
            None => None,
        }
    }

    /// A copy of the object, which shares nothing.
    pub fn copied(&self, alloc: Global) -> Result<CoercedValue, AllocError>
        ensures { IfOk result (λ copy. view copy ≡ view self.now) }
    {
        let copies = copies_of(alloc, &self.members)?;
        Ok(copies.into_value())
    }
}
