//! Faults in the order of reports, each once.

ghost use Rattle.std.specs.Prelude.{◌≡◌, ◌↔◌, IfOk, OnOk, IsTrue, Contains};
ghost use Rattle.std.specs.List.Sorted.{IsPermutation, IsStrictlySortedBy};
ghost use Rattle.gql_ast.specs.declared.fault.Fault.{Fault as TheFault};
ghost use Rattle.gql_report.specs.Order.{fault_order};

use crate::ranked::Ranked;
use crate::rough::{is_beside, rough_of};
use gql_ast::{Fault, Shared};
use std::alloc::{AllocError, Global};
use std::cmp::Ordering;

/// The stretch of a fault that comes after these: that of the last one if both are in one file, or
/// else a new one.
fn stretch_after(all: &[Ranked], fault: &Fault) -> usize {
    match all.last() {
        Some(last) => {
            if is_beside(last.fault.get(), fault) {
                last.rough.stretch
            } else {
                all.len()
            }
        }
        None => 0,
    }
}

fn ranked(alloc: Global, faults: Vec<Shared<Fault>>) -> Result<Vec<Ranked>, AllocError>
    ensures { IfOk result (λ all. all.items ≡ faults.items) }
{
    let mut all = Vec::new(alloc);
    for fault in faults {
        let stretch = stretch_after(all.as_slice(), fault.get());
        let rough = rough_of(fault.get(), stretch);
        all.push(Ranked { fault, rough })?;
    }
    Ok(all)
}

fn unranked(alloc: Global, all: Vec<Ranked>) -> Result<Vec<Shared<Fault>>, AllocError>
    ensures { IfOk result (λ faults. faults.items ≡ all.items) }
{
    let mut faults = Vec::new(alloc);
    for ranked in all {
        faults.push(ranked.fault)?;
    }
    Ok(faults)
}

/// The faults in the rough order.
fn in_rough_order(alloc: Global, faults: Vec<Shared<Fault>>) -> Result<Vec<Ranked>, AllocError>
    ensures { IfOk result (λ all. IsPermutation faults.items all.items) }
{
    let mut all = ranked(alloc, faults)?;
    all.sort_unstable_by_key(|ranked| ranked.rough);
    Ok(all)
}

/// Whether faults are in the order of reports, each once.
fn is_ordered(all: &[Ranked]) -> bool
    ensures { IsTrue result → IsStrictlySortedBy fault_order all.now }
{
    for i in 1..all.len() {
        if all[i - 1].cmp(&all[i]) != Ordering::Less {
            return false;
        }
    }
    true
}

/// Sorts faults, and leaves each once.
fn sort_each_once(all: &mut Vec<Ranked>) -> Result<(), AllocError>
    ensures ordered { OnOk result (IsStrictlySortedBy fault_order all.new.items) }
    ensures members { OnOk result ((f : TheFault)
        → Contains all.new.items f ↔ Contains all.old.items f) }
{
    if is_ordered(all.as_slice()) {
        return Ok(());
    }
    all.sort()?;
    all.dedup();
    Ok(())
}

/// The faults in the order of a report, each once: by their first place (none first; schema files
/// before documents, then by file and offset), rule, second place, owner (none first) and text.
/// None is copied: the report shares them.
pub fn in_order(alloc: Global, faults: Vec<Shared<Fault>>) -> Result<Vec<Shared<Fault>>, AllocError>
    ensures ordered { IfOk result (λ report. IsStrictlySortedBy fault_order report.items) }
    ensures members { IfOk result (λ report. (f : TheFault)
        → Contains report.items f ↔ Contains faults.items f) }
{
    let mut all = in_rough_order(alloc, faults)?;
    sort_each_once(&mut all)?;
    let report = unranked(alloc, all)?;
    Ok(report)
}
