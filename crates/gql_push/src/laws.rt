//! Laws of pushes: contracts of functions that do nothing.
//!
//! The first three say what the clauses of `plan`, `pushed_after` and `to_put_again` come to. The
//! first two ask that no target has two sums among the resources: a folder has one file of each
//! target. The others say what the clauses of `Progress::next`, `Progress::note`,
//! `Progress::together` and `Progress::note_together` come to.
ghost use Rattle.gql_push.specs.Laws as laws;

/// Once all edits of a plan are made, what is pushed is what the folder has: the same targets, each
/// with the same sum.
pub fn all_pushed()
    ensures { laws.AllPushed }
{}

/// Where what was pushed is what the folder has, nothing is put and nothing removed.
pub fn nothing_to_push()
    ensures { laws.NothingToPush }
{}

/// Where the pushed resources are to be put again, a plan puts each resource of a folder: no file
/// has the sum that they then have.
pub fn all_put_again()
    ensures { laws.AllPutAgain }
{}

/// Where a push starts at the revision that the registry reports, no edit of it is made after one
/// of somebody else. So each edit that is made follows on the files that the push knows of.
pub fn nobody_between()
    ensures { laws.NobodyBetween }
{}

/// Once a push has stopped, nothing is sent, whatever is replied.
pub fn stops_for_good()
    ensures { laws.StopsForGood }
{}

/// An edit that is sent and not made stops the push: nothing is sent after it.
pub fn stops_at_refusal()
    ensures { laws.StopsAtRefusal }
{}

/// One request for all edits makes all of them, and nothing is left to send; or it makes none, and
/// the push is as before, or has stopped.
pub fn all_or_none()
    ensures { laws.AllOrNone }
{}
