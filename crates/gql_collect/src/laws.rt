//! Laws of collection. The functions do nothing; their contracts hold.
ghost use Rattle.gql_collect.specs.Laws as laws;

/// Selections have at most one list of groups.
pub fn one_collection()
    ensures { laws.OneCollection }
{}

/// Selections have groups if no fragment that they lead to leads back to itself.
pub fn some_collection()
    ensures { laws.SomeCollection }
{}

/// Selections nest at some depth if no fragment that they lead to leads back to itself.
pub fn some_depth()
    ensures { laws.SomeDepth }
{}

/// Selections that nest at some depth have groups, and what each group selects nests less deep.
pub fn some_groups()
    ensures { laws.SomeGroups }
{}
