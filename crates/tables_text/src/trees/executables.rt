//! Operations, fragments and selections, as the tables write them.

use crate::trees::literals::write_type_and_default;
use crate::trees::{
    Written, write_blank_between, write_directives, write_enclosed, write_named, write_optional,
    write_placed,
};
use gql_ast::{
    Field, Fragment, InlineFragment, Operation, OperationKind, Selection, Spread,
    VariableDefinition,
};
use std::alloc::AllocError;

impl Written for Selection {
    #[cycle(selections)]
    fn write_to(&self, text: &mut String) -> Result<(), AllocError> {
        match self {
            Selection::Field(field) => field.write_to(text),
            Selection::Spread(spread) => spread.write_to(text),
            Selection::InlineFragment(fragment) => fragment.write_to(text),
        }
    }
}

/// Adds a selection set, or nothing if none is written.
#[cycle(selections)]
fn write_set(text: &mut String, selections: &[Selection]) -> Result<(), AllocError> {
    if selections.is_empty() {
        return Ok(());
    }
    text.push_str(" {")?;
    let mut is_first = true;
    for selection in selections {
        write_blank_between(text, is_first)?;
        selection.write_to(text)?;
        is_first = false;
    }
    text.push_str("}")
}

impl Written for Field {
    #[cycle(selections)]
    fn write_to(&self, text: &mut String) -> Result<(), AllocError> {
        write_optional(text, "", &self.alias, ": ")?;
        self.name.write_to(text)?;
        write_enclosed(text, "(", &self.arguments, ")")?;
        write_directives(text, &self.directives)?;
        write_set(text, self.selections.as_slice())
    }
}

impl Written for Spread {
    fn write_to(&self, text: &mut String) -> Result<(), AllocError> {
        write_named(text, "...", &self.place, " ", &self.name)?;
        write_directives(text, &self.directives)
    }
}

impl Written for InlineFragment {
    #[cycle(selections)]
    fn write_to(&self, text: &mut String) -> Result<(), AllocError> {
        write_placed(text, "...", &self.place)?;
        write_optional(text, " on ", &self.condition, "")?;
        write_directives(text, &self.directives)?;
        write_set(text, self.selections.as_slice())
    }
}

impl Written for VariableDefinition {
    fn write_to(&self, text: &mut String) -> Result<(), AllocError> {
        write_named(text, "$", &self.place, " ", &self.name)?;
        write_type_and_default(text, &self.of_type, &self.default)?;
        write_directives(text, &self.directives)
    }
}

/// The word of a kind of operation.
pub fn word_of(kind: OperationKind) -> &'static str {
    match kind {
        OperationKind::Query => "query",
        OperationKind::Mutation => "mutation",
        OperationKind::Subscription => "subscription",
    }
}

impl Written for Operation {
    fn write_to(&self, text: &mut String) -> Result<(), AllocError> {
        write_placed(text, word_of(self.kind), &self.place)?;
        write_optional(text, " ", &self.name, "")?;
        write_enclosed(text, "(", &self.variables, ")")?;
        write_directives(text, &self.directives)?;
        write_set(text, self.selections.as_slice())
    }
}

impl Written for Fragment {
    fn write_to(&self, text: &mut String) -> Result<(), AllocError> {
        write_named(text, "fragment", &self.place, " ", &self.name)?;
        text.push_str(" on ")?;
        self.condition.write_to(text)?;
        write_directives(text, &self.directives)?;
        write_set(text, self.selections.as_slice())
    }
}
