//! Faults that compare by the order of reports.

ghost use Rattle.std.specs.Prelude.{◌≡◌, Some, refl};
ghost use Rattle.std.specs.Ordering.{eq_by_cmp};
ghost use Rattle.std.specs.Cmp.{partial_equiv_from_equiv, eq_by_cmp_equiv, partial_order_from_total};
ghost use Rattle.gql_report.specs.Order.{fault_order};
ghost use Rattle.gql_report.specs.Total.{fault_order_total};

use crate::order::fault_cmp;
use crate::rough::Rough;
use gql_ast::{Fault, Shared};
use std::cmp::Ordering;
use std::marker::Model;

/// A fault, compared by the order of reports. Contracts see the fault.
#[derive(Drop)]
pub struct Ranked {
    pub fault: Shared<Fault>,
    pub rough: Rough,
}

impl Model for Ranked {
    ghost use Rattle.gql_ast.specs.declared.fault.Fault.{Fault};
    ghost use Rattle.gql_ast.specs.contracts.fault.Fault as contracts;
    ghost use Rattle.std.specs.Coded.{codes};

    ghost Value = { Fault };

    ghost coded = { Prim.hlevel (codes, contracts.the_row.coded) };

    ghost view = { λ r. r.fault };
}

impl PartialEq for Ranked {
    ghost eq = { eq_by_cmp fault_order };

    ghost laws = { partial_equiv_from_equiv (eq_by_cmp_equiv fault_order_total) };

    fn eq(&self, other: &Ranked) -> bool {
        self.cmp(other).is_eq()
    }
}

impl Eq for Ranked {
    ghost laws = { eq_by_cmp_equiv fault_order_total };
}

impl PartialOrd for Ranked {
    ghost partial_cmp = { λ a b. Some (fault_order a b) };

    ghost laws = { partial_order_from_total fault_order_total };

    fn partial_cmp(&self, other: &Ranked) -> Option<Ordering> {
        Some(self.cmp(other))
    }
}

impl Ord for Ranked {
    ghost cmp = { fault_order };

    ghost total = { fault_order_total };

    ghost matches_partial_cmp = { λ a b. refl };

    ghost matches_eq = { λ a b. refl };

    fn cmp(&self, other: &Ranked) -> Ordering {
        fault_cmp(self.fault.get(), other.fault.get())
    }
}
