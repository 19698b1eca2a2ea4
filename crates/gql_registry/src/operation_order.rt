//! The order in which operations are kept, and what is looked for among them.
ghost use Rattle.std.specs.Prelude.{◌≡◌, Some};
ghost use Rattle.std.specs.Option.{option_copied};
ghost use Rattle.gql_registry.specs.OperationLaws.{operation_total, title_rises};
ghost use Rattle.gql_registry.specs.OperationOrders.{operation_order, title_order};

use crate::kept_operation::KeptOperation;
use gql_chunks::{HasOrder, Probe};
use std::cmp::Ordering;

/// The order of two names of operations. Those with no name are last.
fn order_of_names(name: Option<&str>, other: Option<&str>) -> Ordering
    ensures { result ≡ title_order (option_copied name.entry) (option_copied other.entry) }
{
    match name {
        Some(name) => match other {
            Some(other) => name.cmp(other),
            None => Ordering::Less,
        },
        None => match other {
            Some(_) => Ordering::Greater,
            None => Ordering::Equal,
        },
    }
}

impl HasOrder for KeptOperation {
    ghost order = { operation_order };

    fn order_to(&self, other: &KeptOperation) -> Ordering {
        let by_name = order_of_names(self.name(), other.name());
        if by_name.is_ne() {
            return by_name;
        }
        let by_file = self.file.cmp(&other.file);
        by_file.then(self.number.cmp(&other.number))
    }

    ghost total = { operation_total };
}

/// The operations of a name are looked for.
#[derive(Drop)]
pub struct OfName<'n> {
    pub name: &'n str,
}

impl<'n> Probe<KeptOperation> for OfName<'n> {
    ghost order = { λ p x. title_order x.name (Some p.name.now) };

    fn order_of(&self, item: &KeptOperation) -> Ordering {
        order_of_names(item.name(), Some(self.name))
    }

    ghost rises = { λ p x y before. title_rises p.name.now x y before };
}
