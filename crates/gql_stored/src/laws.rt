//! Laws of effects. The functions do nothing; their contracts hold.
//!
//! Together they say what a mutation means whose fields are all executed on the data before it, and
//! whose effects are then added. An effect adds to one list and changes nothing else, each list
//! stays a list, and effects are added one after the other. So a field finds the same lists
//! whether the effects of the fields before it have been added or not, and the data come to the
//! same either way.
ghost use Rattle.gql_stored.specs.Laws as laws;

/// An effect adds its value at the end of its list, if the data have that list. All other lists
/// stay as they are.
pub fn one_list()
    ensures { laws.OneList }
{}

/// After any effects, the data have the lists that they had.
pub fn lists_stay()
    ensures { laws.ListsStay }
{}

/// After any effects, each member of the data other than `query` is as it was.
pub fn other_members()
    ensures { laws.OtherMembers }
{}

/// To add effects and then others comes to the same as to add them all.
pub fn in_sequence()
    ensures { laws.InSequence }
{}
