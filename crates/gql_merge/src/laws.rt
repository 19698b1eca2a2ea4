//! Laws over the faults of a definition by the rules on the merging of fields, with no code.
ghost use Rattle.std.specs.Prelude.{◌≡◌, ◌↔◌};
ghost use Rattle.gql_ast.specs.declared.definition.Definition.{Definition};
ghost use Rattle.gql_ast.specs.declared.fault.Fault.{Fault};
ghost use Rattle.gql_facts.specs.Reads.{Agree};
ghost use Rattle.gql_facts.specs.Worlds.{Facts};
ghost use Rattle.gql_facts.specs.declared.fact.FragmentFact.{FragmentFact};
ghost use Rattle.gql_facts.specs.declared.key.Key.{Key};
ghost use Rattle.gql_merge.specs.Between.{IsBadBetween, PairReads};
ghost use Rattle.gql_merge.specs.ByFragments.{IsFaultByPairs, IsPairOf};
ghost use Rattle.gql_merge.specs.BySets.{IsFaultBySets};
ghost use Rattle.gql_merge.specs.MergeFaults.{IsMergeFault};
ghost use Rattle.gql_merge.specs.declared.bad_pair.BadPair.{BadPair};

/// The faults by the rules on the merging of fields depend only on what the definition reads: facts
/// that agree there give the same faults, both ways.
pub fn same_merge_faults()
    ensures { (v u : Facts) → (d : Definition) → Agree v u d
        → (f : Fault) → IsMergeFault v d f ↔ IsMergeFault u d f }
{}

/// The faults by the rules on the merging of fields are those of the definition's selection sets:
/// for each set, those from pairs with a field of the set itself, and those between two fragments
/// that the set spreads, in any number of steps.
pub fn merge_faults_are_of_sets()
    ensures { (facts : Facts) → (d : Definition) → (f : Fault)
        → IsMergeFault facts d f ↔ IsFaultBySets facts d f }
{}

/// The faults by the rules on the merging of fields are those of the definition's own fields, and
/// those between two fragments that one of its sets spreads, in any number of steps; a fragment with
/// itself is such a pair, too. What clashes between two fragments does not depend on the definition.
pub fn merge_faults_are_of_fragments()
    ensures { (facts : Facts) → (d : Definition) → (f : Fault)
        → IsMergeFault facts d f ↔ IsFaultByPairs facts d f }
{}

/// Where a definition has no fault by the rules on the merging of fields, nothing is bad between two
/// fragments that one of its sets spreads, in any number of steps.
pub fn nothing_is_bad_without_faults()
    ensures { (facts : Facts) → (d : Definition) → ((f : Fault) → IsMergeFault facts d f → ⊥)
        → (g h : FragmentFact) → IsPairOf facts d g h
        → (p : BadPair) → IsBadBetween facts g h p → ⊥ }
{}

/// What clashes between two fragments depends only on which fragments have their names, and on what
/// the two read: facts that agree there give the same bad pairs, both ways.
pub fn same_pairs()
    ensures { (v u : Facts) → (g h : FragmentFact)
        → ((k : Key) → PairReads v g h k → u k ≡ v k)
        → (p : BadPair) → IsBadBetween v g h p ↔ IsBadBetween u g h p }
{}
