//! How the execution of a part ends.
ghost use Rattle.std.specs.Prelude.{◌≡◌};
ghost use Rattle.gql_steps.specs.Ended.{both};

#[derive(Clone, Copy, Debug)]
pub enum Ended {
    /// Its text is written.
    Written,
    /// A null goes up to what is around it.
    Bubbled,
}

impl Ended {
    /// How two parts of one value end.
    pub fn and(self, next: Ended) -> Ended
        ensures { result ≡ both self next }
    {
        match self {
            Ended::Written => next,
            Ended::Bubbled => Ended::Bubbled,
        }
    }
}
