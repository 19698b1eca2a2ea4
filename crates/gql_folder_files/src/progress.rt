//! How far a command has come, on standard error, if that is a terminal.

use gql_folder::GivenFile;
use std::io::IsTerminal;
use std::time::{Duration, Instant};

/// How many bytes of files take about a second to check.
const MANY_BYTES: usize = 4_000_000;

/// Shows how many files were put, if that takes more than a second.
#[derive(Drop)]
pub struct Counter {
    /// When the work began; nothing is shown if there is none.
    began: Option<Instant>,
    is_shown: bool,
}

impl Counter {
    /// A counter of work that begins now.
    pub fn new(rt: &HostRuntime) -> Counter {
        let began = if rt.stderr().is_terminal() {
            Instant::now(rt).ok()
        } else {
            None
        };
        Counter {
            began,
            is_shown: false,
        }
    }

    /// Shows that so many of all files were put.
    pub fn show(&mut self, rt: &HostRuntime, put: usize, all: usize) {
        let Some(began) = &self.began else {
            return;
        };
        let Ok(passed) = began.elapsed(rt) else {
            return;
        };
        if passed >= Duration::from_secs(1) {
            if let Ok(text) = format!(in rt.alloc(); "\r{put} of {all} files") {
                self.is_shown = rt.eprint(text).is_ok();
            }
        }
    }

    /// Ends the line that shows how many files were put, if there is one.
    pub fn end(&self, rt: &HostRuntime) {
        if self.is_shown {
            let _ = rt.eprintln("");
        }
    }
}

/// Says that files are checked, if that may take more than a second.
pub fn tell_long_check(rt: &HostRuntime, files: &[GivenFile]) {
    let mut bytes: usize = 0;
    for file in files {
        bytes = bytes.saturating_add(file.bytes.len());
    }
    if bytes >= MANY_BYTES && rt.stderr().is_terminal() {
        let count = files.len();
        if let Ok(text) = format!(in rt.alloc(); "checking {count} files") {
            let _ = rt.eprintln(text);
        }
    }
}
