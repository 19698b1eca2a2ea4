//! Faults of one cause, put together.

ghost use Rattle.std.specs.Prelude.{◌≡◌, ◌++◌, ◌∷◌, [], IfOk, OnOk, slice_index};
ghost use Rattle.gql_findings.specs.Causes.{AreCauses, AreGrouped, has_cause, mark_of_cause};
ghost use Rattle.gql_findings.specs.Gathering.{Agree, Gathers};
ghost use Rattle.gql_findings.specs.Marks.{cause_mark, same_mark};

use crate::finding::Finding;
use crate::marks::{Key, cause_key};
use gql_ast::{Rule, Text};
use indexmap::IndexSet;
use std::alloc::{AllocError, Global};
use std::cmp::Reverse;

/// The faults that break one rule about one text, by their places in a list.
#[derive(Debug, Drop)]
pub struct Cause {
    pub rule: Rule,
    pub about: Text,
    pub members: Vec<usize>,
}

/// The cause of a fault, with this member alone.
fn alone(alloc: Global, finding: &Finding, member: usize) -> Result<Cause, AllocError>
    ensures mark { IfOk result (λ c. mark_of_cause c ≡ cause_mark finding.now) }
    ensures members { IfOk result (λ c. c.members.items ≡ member ∷ []) }
{
    let mut members = Vec::new(alloc);
    members.push(member)?;
    Ok(Cause {
        rule: finding.rule,
        about: finding.about.copy()?,
        members,
    })
}

/// Adds a member to a cause.
fn add_to(cause: &mut Cause, member: usize) -> Result<(), AllocError>
    ensures mark { mark_of_cause cause.new ≡ mark_of_cause cause.old }
    ensures members { OnOk result (cause.new.members.items
        ≡ cause.old.members.items ++ member ∷ []) }
{
    cause.members.push(member)?;
    Ok(())
}

/// Adds a fault to its cause; a new cause comes last. The keys are those of the causes, in their
/// order.
fn gather<'a>(
    alloc: Global,
    keys: &mut IndexSet<Key<'a>>,
    causes: &mut Vec<Cause>,
    finding: &'a Finding,
    member: usize,
) -> Result<(), AllocError>
    requires { Agree keys.old.keys causes.old.items }
    ensures { OnOk result (Gathers (λ m. same_mark m (cause_mark finding.now)) member
        keys.old.keys keys.new.keys causes.old.items causes.new.items) }
{
    let (place, _is_new) = keys.insert_full(cause_key(finding))?;
    if place < causes.len() {
        add_to(&mut causes[place], member)?;
        return Ok(());
    }
    let cause = alone(alloc, finding, member)?;
    causes.push(cause)?;
    Ok(())
}

/// Adds the fault at a place to its cause; nothing where the list has no fault there.
fn gather_at<'a>(
    alloc: Global,
    keys: &mut IndexSet<Key<'a>>,
    causes: &mut Vec<Cause>,
    findings: &'a [Finding],
    member: usize,
) -> Result<(), AllocError>
    requires { Agree keys.old.keys causes.old.items }
    ensures { OnOk result (Gathers (λ m. has_cause findings.now m member) member
        keys.old.keys keys.new.keys causes.old.items causes.new.items) }
{
    match findings.get(member) {
        Some(finding) => {
            gather(alloc, keys, causes, finding, member)?;
            Ok(())
        }
        None => Ok(()),
    }
}

/// The causes of these faults, in the order of their first members.
fn gathered(alloc: Global, findings: &[Finding], which: &[usize]) -> Result<Vec<Cause>, AllocError>
    ensures { IfOk result (λ causes. AreGrouped findings.now which.now causes.items) }
{
    let mut keys = IndexSet::new(alloc);
    let mut causes = Vec::new(alloc);
    for member in which {
        gather_at(alloc, &mut keys, &mut causes, findings, *member)?;
    }
    Ok(causes)
}

/// The first member of a cause.
fn first_member(cause: &Cause) -> usize
    ensures { result ≡ slice_index cause.now.members.items 0 }
{
    cause.members.first().copied().unwrap_or(0)
}

/// The causes of these faults, which are given by their places in the list: the largest first, and
/// of one size those with the smallest first member. A place that has no fault is left out.
pub fn causes(
    alloc: Global,
    findings: &[Finding],
    which: &[usize],
) -> Result<Vec<Cause>, AllocError>
    ensures { IfOk result (λ causes. AreCauses findings.now which.now causes.items) }
{
    let mut causes = gathered(alloc, findings, which)?;
    causes.sort_by_key(|cause| (Reverse(cause.members.len()), first_member(cause)))?;
    Ok(causes)
}
