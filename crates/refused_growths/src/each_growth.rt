//! Each growth of a step refused in turn.
use crate::state::State;
use crate::step::{Given, Step, written};
use crate::tally::Tally;
use crate::tool::{MOST_GROWTHS, Refused, came, refuse, refuse_none};
use gql_registry::{Refusal, Registry};
use gql_verdict::Meter;
use std::alloc::Global;

/// A step, those before it on an empty registry, and the operations whose runs are compared.
#[derive(Drop)]
pub struct Case<'a> {
    pub alloc: Global,
    pub steps: &'a [Step],
    pub operations: &'a [String],
}

/// What the step gives without any refusal, and the states before and after it.
#[derive(Drop)]
struct Whole {
    before: State,
    text: String,
    after: State,
}

/// The registry after these steps.
fn registry_after(alloc: Global, steps: &[Step]) -> Option<Registry> {
    let mut registry = Registry::new(alloc).ok()?;
    for step in steps {
        let mut meter = Meter::new(alloc);
        if let Err(Refusal::Memory) = step.make(&mut registry, &mut meter) {
            return None;
        }
    }
    Some(registry)
}

impl Case<'_> {
    fn state(&self, registry: &Registry) -> Option<State> {
        State::of(self.alloc, registry, self.steps, self.operations)
    }

    fn whole(&self, before: &[Step], step: &Step) -> Option<Whole> {
        let mut registry = registry_after(self.alloc, before)?;
        let state = self.state(&registry)?;
        let mut meter = Meter::new(self.alloc);
        let given = step.make(&mut registry, &mut meter);
        Some(Whole {
            before: state,
            text: written(self.alloc, &given, &meter)?,
            after: self.state(&registry)?,
        })
    }

    /// What is different where the step gave this without a refusal, or when it was made again.
    fn differs_after(
        &self,
        whole: &Whole,
        registry: &Registry,
        given: &Result<Given, Refusal>,
        meter: &Meter,
    ) -> Option<&'static str> {
        if written(self.alloc, given, meter)?.as_str() != whole.text.as_str() {
            return Some("it gives something else");
        }
        if !self.state(registry)?.same(&whole.after) {
            return Some("another state follows");
        }
        Some("")
    }

    /// Makes the step with its nth growth refused, and then again. Returns whether it had so many
    /// growths; and what is different, or nothing.
    fn attempt(
        &self,
        before: &[Step],
        step: &Step,
        whole: &Whole,
        refused: Refused,
        n: u16,
    ) -> Option<(bool, &'static str)> {
        let mut registry = registry_after(self.alloc, before)?;
        let mut meter = Meter::new(self.alloc);
        refuse(self.alloc, refused, n);
        let given = step.make(&mut registry, &mut meter);
        let is_refused = came(self.alloc, n);
        refuse_none(self.alloc);
        if !is_refused {
            let different = self.differs_after(whole, &registry, &given, &meter)?;
            return Some((false, different));
        }
        let Err(Refusal::Memory) = given else {
            return Some((true, "an answer stands in place of the refusal"));
        };
        if !self.state(&registry)?.same(&whole.before) {
            return Some((true, "the state is not as before"));
        }
        let mut again = Meter::new(self.alloc);
        let given = step.make(&mut registry, &mut again);
        Some((true, self.differs_after(whole, &registry, &given, &again)?))
    }

    /// Makes the last step with each of its growths refused in turn.
    fn refuse_each(
        &self,
        line: &str,
        whole: &Whole,
        refused: Refused,
        tally: &mut Tally,
    ) -> Option<()> {
        let (step, before) = self.steps.split_last()?;
        for n in 1..MOST_GROWTHS {
            let (is_refused, different) = self.attempt(before, step, whole, refused, n)?;
            if !different.is_empty() {
                tally.differ(line, n, different).ok()?;
            }
            if !is_refused {
                return Some(());
            }
            tally.add_growth();
        }
        tally.differ(line, MOST_GROWTHS, "no end of growths").ok()
    }

    /// Makes the last step with each of its growths refused in turn, alone and with all after it.
    /// Without any refusal it gives what is expected.
    pub fn each_growth_refused(&self, line: &str, expected: &str, tally: &mut Tally) -> Option<()> {
        let (step, before) = self.steps.split_last()?;
        let whole = self.whole(before, step)?;
        if whole.text.as_str() != expected {
            tally.differ(line, 0, whole.text.as_str()).ok()?;
        }
        self.refuse_each(line, &whole, Refused::One, tally)?;
        self.refuse_each(line, &whole, Refused::AllFrom, tally)
    }
}
