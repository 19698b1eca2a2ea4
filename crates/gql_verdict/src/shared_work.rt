//! What the examinations of one edit share.
ghost use Rattle.std.specs.Prelude.{◌≡◌};
ghost use Rattle.gql_pairs.specs.Tables.{AllHold};
ghost use Rattle.gql_verdict.specs.SharedWorks.{Holds};

use gql_merge::CleanFragments;
use gql_pairs::PairTable;
use gql_reads::ReadTable;
use std::alloc::Global;

/// What the examinations of one edit share: what was observed of each fragment alone and of each key,
/// which fragments are known to have no fault by the merging of fields, and what
/// clashes between fragments.
#[derive(Drop)]
pub struct SharedWork {
    pub reads: ReadTable,
    pub clean: CleanFragments,
    pub pairs: PairTable,
}

impl SharedWork {
    ghost use Rattle.gql_facts.specs.Worlds.{Facts};

    /// Nothing but this table of pairs. It holds wherever the table's entries do.
    pub fn new(alloc: Global, pairs: PairTable) -> SharedWork
        ensures holds { (facts : Facts) → AllHold facts pairs → Holds facts result }
        ensures pairs { result.pairs ≡ pairs }
    {
        SharedWork {
            reads: ReadTable::new(alloc),
            clean: CleanFragments::new(alloc),
            pairs,
        }
    }
}
