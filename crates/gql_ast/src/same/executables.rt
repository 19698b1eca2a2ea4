//! Comparison of operations, fragments and selections.

ghost use Rattle.std.specs.Prelude.{◌≡◌, ◌↔◌, IsTrue};

use crate::executable::{
    Field, Fragment, InlineFragment, Operation, Selection, Spread, VariableDefinition,
};
use crate::same::{Same, same_items, same_option};

impl Same for Selection {
    #[cycle(same)]
    fn same(&self, other: &Selection) -> bool {
        match self {
            Selection::Field(field) => match other {
                Selection::Field(theirs) => field.same(theirs),
                _ => false,
            },
            Selection::Spread(spread) => match other {
                Selection::Spread(theirs) => spread.same(theirs),
                _ => false,
            },
            Selection::InlineFragment(fragment) => match other {
                Selection::InlineFragment(theirs) => fragment.same(theirs),
                _ => false,
            },
        }
    }
}

#[cycle(same)]
fn same_selections(items: &[Selection], others: &[Selection]) -> bool
    ensures { IsTrue result ↔ (items.now ≡ others.now) }
{
    if items.len() != others.len() {
        return false;
    }
    for i in 0..items.len() {
        if !items[i].same(&others[i]) {
            return false;
        }
    }
    true
}

impl Same for Field {
    #[cycle(same)]
    fn same(&self, other: &Field) -> bool {
        same_option(&self.alias, &other.alias)
            && self.name.same(&other.name)
            && same_items(self.arguments.as_slice(), other.arguments.as_slice())
            && same_items(self.directives.as_slice(), other.directives.as_slice())
            && same_selections(self.selections.as_slice(), other.selections.as_slice())
    }
}

impl Same for InlineFragment {
    #[cycle(same)]
    fn same(&self, other: &InlineFragment) -> bool {
        self.place.same(&other.place)
            && same_option(&self.condition, &other.condition)
            && same_items(self.directives.as_slice(), other.directives.as_slice())
            && same_selections(self.selections.as_slice(), other.selections.as_slice())
    }
}

impl Same for Spread {
    fn same(&self, other: &Spread) -> bool {
        self.place.same(&other.place)
            && self.name.same(&other.name)
            && same_items(self.directives.as_slice(), other.directives.as_slice())
    }
}

impl Same for VariableDefinition {
    fn same(&self, other: &VariableDefinition) -> bool {
        self.place.same(&other.place)
            && self.name.same(&other.name)
            && self.of_type.same(&other.of_type)
            && same_option(&self.default, &other.default)
            && same_items(self.directives.as_slice(), other.directives.as_slice())
    }
}

impl Same for Operation {
    fn same(&self, other: &Operation) -> bool {
        self.place.same(&other.place)
            && self.kind.same(&other.kind)
            && same_option(&self.name, &other.name)
            && same_items(self.variables.as_slice(), other.variables.as_slice())
            && same_items(self.directives.as_slice(), other.directives.as_slice())
            && same_items(self.selections.as_slice(), other.selections.as_slice())
    }
}

impl Same for Fragment {
    fn same(&self, other: &Fragment) -> bool {
        self.place.same(&other.place)
            && self.name.same(&other.name)
            && self.condition.same(&other.condition)
            && same_items(self.directives.as_slice(), other.directives.as_slice())
            && same_items(self.selections.as_slice(), other.selections.as_slice())
    }
}
