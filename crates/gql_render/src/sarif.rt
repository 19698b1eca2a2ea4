//! A check as SARIF 2.1.0, which code scanners exchange.

use crate::check::{Check, broken_operations, shown_faults};
use crate::escapes::write_uri;
use crate::fingerprint::fingerprint;
use crate::json_write::{write_bytes, write_number_after, write_string_after};
use crate::phrases::{first_words, hidden, write_affected, write_fault};
use crate::write::{write_number, write_text, write_texts};
use gql_findings::{
    Affected, Finding, Key, Rule, Source, Spot, fault_key, label_at, sentence, title,
};
use gql_version::VERSION;
use std::alloc::{AllocError, Global};
use std::collections::HashMap;

/// The rules of the faults, each once, in the order of their first faults.
fn rules_of(alloc: Global, faults: &[&Finding]) -> Result<Vec<Rule>, AllocError> {
    let mut rules = Vec::new(alloc);
    for fault in faults {
        if place_of(rules.as_slice(), fault.rule) == rules.len() {
            rules.push(fault.rule)?;
        }
    }
    Ok(rules)
}

/// The place of a rule in a list, which has each of at most 71 rules once; its length where it has
/// not the rule.
fn place_of(rules: &[Rule], rule: Rule) -> usize {
    rules
        .iter()
        .position(|known| *known == rule)
        .unwrap_or(rules.len())
}

/// Writes the name and the sentence of a rule, as a member.
fn write_description(alloc: Global, out: &mut Vec<u8>, rule: Rule) -> Result<(), AllocError> {
    let mut text = String::new(alloc);
    write_texts(&mut text, &[title(rule), ": ", sentence(rule)])?;
    write_string_after(
        alloc,
        out,
        b"},\"fullDescription\":{\"text\":",
        text.as_str(),
    )
}

/// Writes a rule.
fn write_rule(alloc: Global, out: &mut Vec<u8>, rule: Rule) -> Result<(), AllocError> {
    write_string_after(alloc, out, b"{\"id\":", rule.name())?;
    write_string_after(alloc, out, b",\"shortDescription\":{\"text\":", title(rule))?;
    write_description(alloc, out, rule)?;
    write_bytes(out, b"}}")
}

/// The rule of the result that the documents are hidden.
const HIDDEN_RULE: &[u8] =
    b"{\"id\":\"hidden\",\"shortDescription\":{\"text\":\"Hidden Documents\"}}";

/// Writes rules with commas between them. If the documents are hidden, a rule for that is first.
fn write_rules(
    alloc: Global,
    out: &mut Vec<u8>,
    rules: &[Rule],
    is_hidden: bool,
) -> Result<(), AllocError> {
    let mut comma: &[u8] = b"";
    if is_hidden {
        write_bytes(out, HIDDEN_RULE)?;
        comma = b",";
    }
    for rule in rules {
        write_bytes(out, comma)?;
        write_rule(alloc, out, *rule)?;
        comma = b",";
    }
    Ok(())
}

/// Writes the path of a file as a URI, as the first members of a place.
fn write_file(alloc: Global, out: &mut Vec<u8>, label: &str) -> Result<(), AllocError> {
    let mut uri = String::new(alloc);
    write_uri(&mut uri, label)?;
    write_string_after(
        alloc,
        out,
        b"\"physicalLocation\":{\"artifactLocation\":{\"uri\":",
        uri.as_str(),
    )
}

/// Writes a place, as members of a location.
fn write_place(
    alloc: Global,
    out: &mut Vec<u8>,
    sources: &[Source],
    spot: &Spot,
) -> Result<(), AllocError> {
    write_file(alloc, out, label_at(sources, spot))?;
    write_number_after(out, b"},\"region\":{\"startLine\":", spot.line)?;
    write_number_after(out, b",\"startColumn\":", spot.column)?;
    write_bytes(out, b"}}")
}

/// Writes the places of a fault after the first, as related locations.
fn write_related(
    alloc: Global,
    out: &mut Vec<u8>,
    sources: &[Source],
    others: &[Spot],
) -> Result<(), AllocError> {
    let mut comma: &[u8] = b"";
    for spot in others {
        write_bytes(out, comma)?;
        write_bytes(
            out,
            b"{\"message\":{\"text\":\"another place of this fault\"},",
        )?;
        write_place(alloc, out, sources, spot)?;
        write_bytes(out, b"}")?;
        comma = b",";
    }
    Ok(())
}

/// Writes the places of a fault: the first as its location, the others as related ones.
fn write_places(
    alloc: Global,
    out: &mut Vec<u8>,
    sources: &[Source],
    spots: &[Spot],
) -> Result<(), AllocError> {
    let Some((first, others)) = spots.split_first() else {
        return write_bytes(out, b",\"locations\":[]");
    };
    write_bytes(out, b",\"locations\":[{")?;
    write_place(alloc, out, sources, first)?;
    if others.is_empty() {
        return write_bytes(out, b"}]");
    }
    write_bytes(out, b"}],\"relatedLocations\":[")?;
    write_related(alloc, out, sources, others)?;
    write_bytes(out, b"]")
}

/// Writes the text of a fault, as a member.
fn write_fault_message(
    alloc: Global,
    out: &mut Vec<u8>,
    fault: &Finding,
) -> Result<(), AllocError> {
    let mut text = String::new(alloc);
    write_fault(&mut text, fault)?;
    write_string_after(
        alloc,
        out,
        b",\"level\":\"error\",\"message\":{\"text\":",
        text.as_str(),
    )
}

/// How many faults that are known by the same there have been, with this one.
fn count_one<'f>(counts: &mut HashMap<Key<'f>, usize>, key: Key<'f>) -> Result<usize, AllocError> {
    let count = counts.get(&key).copied().unwrap_or(0).saturating_add(1);
    counts.insert(key, count)?;
    Ok(count)
}

/// Writes the fingerprint of a fault, as a member: of faults that are known by the same, each has
/// its number. GitHub reads the member of this name.
fn write_fingerprint(
    alloc: Global,
    out: &mut Vec<u8>,
    sources: &[Source],
    fault: &Finding,
    number: usize,
) -> Result<(), AllocError> {
    let mut text = fingerprint(alloc, sources, fault)?;
    write_text(&mut text, ":")?;
    write_number(&mut text, number)?;
    write_string_after(
        alloc,
        out,
        b",\"partialFingerprints\":{\"primaryLocationLineHash\":",
        text.as_str(),
    )?;
    write_bytes(out, b"}")
}

/// Writes the end of a result. Against a base it is new.
fn write_result_end(out: &mut Vec<u8>, check: &Check<'_>) -> Result<(), AllocError> {
    if check.base.is_some() {
        write_bytes(out, b",\"baselineState\":\"new\"}")
    } else {
        write_bytes(out, b"}")
    }
}

/// Writes the first members of a fault: its rule, its text and its places.
fn write_result_start(
    alloc: Global,
    out: &mut Vec<u8>,
    sources: &[Source],
    index: usize,
    fault: &Finding,
) -> Result<(), AllocError> {
    write_string_after(alloc, out, b"{\"ruleId\":", fault.rule.name())?;
    write_number_after(out, b",\"ruleIndex\":", index)?;
    write_fault_message(alloc, out, fault)?;
    write_bytes(out, b"}")?;
    write_places(alloc, out, sources, fault.spots.as_slice())
}

/// Writes that the documents are hidden, as a result at the first fault of the schema.
fn write_hidden_result(
    alloc: Global,
    out: &mut Vec<u8>,
    check: &Check<'_>,
    first: &str,
) -> Result<(), AllocError> {
    write_string_after(
        alloc,
        out,
        b"{\"ruleId\":\"hidden\",\"ruleIndex\":0,\"level\":\"error\",\"message\":{\"text\":",
        first,
    )?;
    write_bytes(out, b"}")?;
    let sources = check.now.sources.as_slice();
    match check.now.findings.first() {
        Some(fault) => match fault.spots.as_slice().first() {
            Some(spot) => write_places(alloc, out, sources, &[*spot])?,
            None => write_places(alloc, out, sources, &[])?,
        },
        None => write_places(alloc, out, sources, &[])?,
    }
    write_bytes(
        out,
        b",\"partialFingerprints\":{\"primaryLocationLineHash\":\"hidden:1\"}",
    )?;
    write_result_end(out, check)
}

/// Writes faults with commas between them. If the documents are hidden, that comes first.
fn write_results(
    alloc: Global,
    out: &mut Vec<u8>,
    check: &Check<'_>,
    rules: &[Rule],
    faults: &[&Finding],
) -> Result<(), AllocError> {
    let sources = check.now.sources.as_slice();
    let first = first_words(check);
    let mut comma: &[u8] = b"";
    let mut offset = 0;
    if !first.is_empty() {
        write_hidden_result(alloc, out, check, first)?;
        comma = b",";
        offset = 1;
    }
    let mut counts = HashMap::new(alloc);
    for fault in faults {
        let number = count_one(&mut counts, fault_key(sources, fault))?;
        let index = place_of(rules, fault.rule).saturating_add(offset);
        write_bytes(out, comma)?;
        write_result_start(alloc, out, sources, index, fault)?;
        write_fingerprint(alloc, out, sources, fault, number)?;
        write_result_end(out, check)?;
        comma = b",";
    }
    Ok(())
}

/// Writes a note of the run.
fn write_note(
    alloc: Global,
    out: &mut Vec<u8>,
    level: &[u8],
    text: &str,
) -> Result<(), AllocError> {
    write_bytes(out, b"{\"level\":\"")?;
    write_bytes(out, level)?;
    write_string_after(alloc, out, b"\",\"message\":{\"text\":", text)?;
    write_bytes(out, b"}}")
}

/// Writes a note on an operation.
fn write_operation_note(
    alloc: Global,
    out: &mut Vec<u8>,
    check: &Check<'_>,
    affected: &Affected,
) -> Result<(), AllocError> {
    let mut text = String::new(alloc);
    let start = match &check.base {
        Some(_) => "broken: ",
        None => "not served: ",
    };
    write_text(&mut text, start)?;
    write_affected(&mut text, affected)?;
    let label = label_at(check.now.sources.as_slice(), &affected.spot);
    write_texts(&mut text, &[" in ", label])?;
    write_note(alloc, out, b"note", text.as_str())
}

/// Writes the notes of the run: first that the documents are hidden, if they are, then the operations
/// that are broken, and what a schema with faults hides.
fn write_notes(alloc: Global, out: &mut Vec<u8>, check: &Check<'_>) -> Result<(), AllocError> {
    let operations = broken_operations(alloc, check)?;
    let mut comma: &[u8] = b"";
    let first = first_words(check);
    if !first.is_empty() {
        write_note(alloc, out, b"error", first)?;
        comma = b",";
    }
    for affected in operations.as_slice() {
        write_bytes(out, comma)?;
        write_operation_note(alloc, out, check, affected)?;
        comma = b",";
    }
    let hidden = hidden(check);
    if hidden.is_empty() {
        return Ok(());
    }
    write_bytes(out, comma)?;
    write_note(alloc, out, b"note", hidden)
}

/// Writes the head of a log of one run, up to its rules.
fn write_head(alloc: Global, out: &mut Vec<u8>) -> Result<(), AllocError> {
    write_string_after(
        alloc,
        out,
        b"{\"$schema\":\"https://json.schemastore.org/sarif-2.1.0.json\",\
        \"version\":\"2.1.0\",\"runs\":[{\
        \"columnKind\":\"unicodeCodePoints\",\
        \"tool\":{\"driver\":{\"name\":\"gqlreg\",\"version\":",
        VERSION,
    )?;
    write_bytes(out, b",\"rules\":[")
}

/// Writes how the run went, up to its notes.
fn write_invocation(out: &mut Vec<u8>, is_hidden: bool) -> Result<(), AllocError> {
    write_bytes(out, b"],\"invocations\":[{\"executionSuccessful\":true,")?;
    if is_hidden {
        write_bytes(out, b"\"properties\":{\"hidden\":true},")?;
    }
    write_bytes(out, b"\"toolExecutionNotifications\":[")
}

/// Writes the rules of the faults, and the faults as results.
fn write_run(
    alloc: Global,
    out: &mut Vec<u8>,
    check: &Check<'_>,
    faults: &[&Finding],
) -> Result<(), AllocError> {
    let rules = rules_of(alloc, faults)?;
    write_rules(alloc, out, rules.as_slice(), !first_words(check).is_empty())?;
    write_bytes(out, b"]}},\"results\":[")?;
    write_results(alloc, out, check, rules.as_slice(), faults)
}

/// Writes the faults that are shown, and their rules.
fn write_shown(alloc: Global, out: &mut Vec<u8>, check: &Check<'_>) -> Result<(), AllocError> {
    let faults = shown_faults(alloc, check)?;
    write_run(alloc, out, check, faults.as_slice())
}

/// The check as a SARIF log of one run: its rules, its faults as results, and notes on operations. If
/// the documents are hidden, that is the first result and the first note.
pub fn as_sarif(alloc: Global, check: &Check<'_>) -> Result<Vec<u8>, AllocError> {
    let mut out = Vec::new(alloc);
    write_head(alloc, &mut out)?;
    write_shown(alloc, &mut out, check)?;
    write_invocation(&mut out, !first_words(check).is_empty())?;
    write_notes(alloc, &mut out, check)?;
    write_bytes(&mut out, b"]}]}]}")?;
    Ok(out)
}
