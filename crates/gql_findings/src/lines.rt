//! Where the lines of a text are: a line ends at LF, at CRLF and at CR, as in the places of
//! gql_text.

ghost use Rattle.std.specs.Prelude.{◌≡◌, ◌==◌, ◌≤◌, not, length, drop, IfOk};
ghost use Rattle.std.specs.List.{prefix_len};
ghost use Rattle.std.specs.Str.{IsCharBoundary};
ghost use Rattle.gql_text.specs.Chars.{is_break};
ghost use Rattle.gql_text.specs.Escapes.{BreaksLine, begins_pair, break_len};
ghost use Rattle.gql_findings.specs.LineSpans.{AreSpans, IsPart, part_of};

use std::alloc::{AllocError, Global};

/// Where a line starts and ends, in bytes.
#[derive(Clone, Copy)]
pub struct LineSpan {
    pub start: usize,
    pub end: usize,
}

impl LineSpan {
    /// The line in its text.
    pub fn of(self, text: &str) -> &str
        requires { IsPart text.now self }
        ensures { result.now ≡ part_of text.now self }
    {
        &text[self.start..self.end]
    }
}

/// How many bytes the first line has.
fn line_len(text: &str) -> usize
    ensures value { result ≡ prefix_len (λ b. not (is_break b)) text.now }
    ensures cut { IsCharBoundary text.now result }
{
    text.as_bytes()
        .iter()
        .take_while(|byte| **byte != b'\n' && **byte != b'\r')
        .count()
}

/// Whether CRLF is at the front.
fn is_pair(bytes: &[u8]) -> bool
    ensures { result ≡ begins_pair bytes.now }
{
    matches!(bytes, [b'\r', b'\n', ..])
}

/// How many bytes the line end at the front has.
fn end_len(text: &str) -> usize
    requires { BreaksLine text.now }
    ensures value { result ≡ break_len text.now }
    ensures within { result ≤ length text.now }
    ensures cut { IsCharBoundary text.now result }
{
    if is_pair(text.as_bytes()) { 2 } else { 1 }
}

/// Where the lines of a text are.
pub fn line_spans(alloc: Global, text: &str) -> Result<Vec<LineSpan>, AllocError>
    ensures { IfOk result (λ spans. AreSpans text.now spans.items) }
{
    let mut spans = Vec::new(alloc);
    let mut start = 0;
    'lines: loop {
        let rest = &text[start..];
        let count = line_len(rest);
        let end = start + count;
        spans.push(LineSpan { start, end })?;
        let behind = &text[end..];
        if behind.is_empty() {
            return Ok(spans);
        }
        start = end + end_len(behind);
    }
}
