//! The law of the order of reports: the contract of a function that does nothing.
ghost use Rattle.gql_report.specs.Laws.{OneOrder};

/// Two lists of the same faults, both in the order of reports, are equal.
pub fn one_order()
    ensures { OneOrder }
{}
