//! A file: its paths, its text, and where its lines are.

ghost use Rattle.std.specs.Prelude.{◌≡◌, drop, length, IfOk, string_bytes};
ghost use Rattle.gql_findings.specs.Sources.{line_at, lines_of};
ghost use Rattle.gql_findings.specs.Tokens.{token_of};

use crate::lines::{LineSpan, line_spans};
use crate::tokens::token_of;
use std::alloc::{AllocError, Global};
use std::marker::Model;

/// A file: its path as it is shown, its path below its folder, and its text. Contracts see these
/// three.
#[derive(Drop)]
pub struct Source {
    label: String,
    path: String,
    text: String,
    lines: Vec<LineSpan>,
}

impl Model for Source {
    ghost use Rattle.std.specs.Prelude.{string_bytes};
    ghost use Rattle.gql_findings.specs.Sources.{TextFile};
    ghost use Rattle.gql_findings.specs.LineSpans.{AreSpans};

    ghost Value = { TextFile };

    ghost view = { λ s. record {
      label = string_bytes s.label;
      path = string_bytes s.path;
      text = string_bytes s.text;
    } };

    ghost invariant = { λ s. AreSpans (string_bytes s.text) s.lines.items };
}

impl Source {
    /// The file of these paths and this text: the path as it is shown, and the one below the folder.
    pub fn new(
        alloc: Global,
        label: String,
        path: String,
        text: String,
    ) -> Result<Source, AllocError>
        ensures label { IfOk result (λ source. source.label ≡ string_bytes label) }
        ensures path { IfOk result (λ source. source.path ≡ string_bytes path) }
        ensures text { IfOk result (λ source. source.text ≡ string_bytes text) }
    {
        let lines = line_spans(alloc, text.as_str())?;
        Ok(Source {
            label,
            path,
            text,
            lines,
        })
    }

    /// The path as it is shown.
    pub fn label(&self) -> &str
        ensures { result.now ≡ self.now.label }
    {
        self.label.as_str()
    }

    /// The path below the folder.
    pub fn path(&self) -> &str
        ensures { result.now ≡ self.now.path }
    {
        self.path.as_str()
    }

    /// The text.
    pub fn text(&self) -> &str
        ensures { result.now ≡ self.now.text }
    {
        self.text.as_str()
    }

    /// How many lines the text has. A text that ends in a line end has an empty line after it.
    pub fn line_count(&self) -> usize
        ensures { result ≡ length (lines_of self.now.text) }
    {
        self.lines.len()
    }

    /// The line of this number, counted from 1, without its end; empty where there is none.
    pub fn line(&self, number: usize) -> &str
        ensures { result.now ≡ line_at self.now.text number }
    {
        if number == 0 {
            return "";
        }
        match self.lines.get(number - 1) {
            Some(span) => span.of(self.text.as_str()),
            None => "",
        }
    }

    /// The token at an offset; empty where the text ends before it.
    pub fn token(&self, offset: usize) -> &[u8]
        ensures { result.now ≡ token_of (drop offset self.now.text) }
    {
        match self.text.as_bytes().get(offset..) {
            Some(rest) => token_of(rest),
            None => &[],
        }
    }
}
