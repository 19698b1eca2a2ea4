//! Tables as far as they are read.
ghost use Rattle.std.specs.Prelude.{◌≡◌, ◌≢◌, [], IfOk, string_bytes};

use crate::joined::join;
use crate::json_strings::unquoted;
use crate::lines::{Lines, lines_in};
use crate::row::{Given, NamedText, Row};
use crate::tally::Tally;
use std::alloc::{AllocError, Global};
use std::{fs, io};

/// Tables as far as they are read.
#[derive(Drop)]
pub struct Table<R: Row> {
    alloc: Global,
    /// What answers the questions of the present row.
    row: R,
    given: Given,
    /// Whether a question was asked of the row, so that the next text begins another.
    is_asked: bool,
    /// The file that is being read, and the number of its line.
    path: String,
    line: u64,
    /// How many answers of it were compared.
    answers: u64,
    pub tally: Tally,
}

fn nothing_given(alloc: Global) -> Given {
    Given {
        texts: Vec::new(alloc),
        document: String::new(alloc),
        answers: String::new(alloc),
    }
}

impl Given {
    /// Begins a text of that name.
    fn begin(&mut self, alloc: Global, name: &str, text: &str) -> Result<(), AllocError> {
        let name = String::from_str(alloc, name)?;
        let text = String::from_str(alloc, text)?;
        self.texts.push(NamedText { name, text })?;
        Ok(())
    }

    /// Adds a line to the text of that name: to the present one, or to a new one.
    fn add_line(&mut self, alloc: Global, name: &str, line: &str) -> Result<(), AllocError> {
        if let Some(present) = self.texts.last_mut() {
            if present.name.as_str() == name {
                present.text.push_str("\n")?;
                return present.text.push_str(line);
            }
        }
        self.begin(alloc, name, line)
    }

    /// Adds a text this many times to the present one.
    fn add_times(&mut self, text: &str, times: u32) -> Result<(), AllocError> {
        if let Some(present) = self.texts.last_mut() {
            for _ in 0..times {
                present.text.push_str(text)?;
            }
        }
        Ok(())
    }

    /// Adds a text this many times to the present one, with no line break, or else to a new one.
    fn add_text(&mut self, alloc: Global, text: &str, times: u32) -> Result<(), AllocError> {
        let is_begun = match self.texts.last() {
            Some(present) => present.name.as_str() != ">",
            None => false,
        };
        if !is_begun {
            self.begin(alloc, "s", "")?;
        }
        self.add_times(text, times)
    }
}

impl<R: Row> Table<R> {
    /// Nothing is read.
    pub fn new(alloc: Global) -> Table<R>
        ensures answers { result.tally.answers ≡ 0 }
        ensures differences { string_bytes result.tally.differences ≡ [] }
    {
        Table {
            alloc,
            row: R::new(alloc),
            given: nothing_given(alloc),
            is_asked: false,
            path: String::new(alloc),
            line: 0,
            answers: 0,
            tally: Tally::new(alloc),
        }
    }

    /// The place of the line that is being read.
    fn place(&self) -> Result<String, AllocError> {
        let path = self.path.as_str();
        let line = self.line;
        format!(in self.alloc; "{path}:{line}")
    }

    /// Refuses a line.
    fn refuse(&mut self, line: &str) -> Result<(), AllocError> {
        let mut place = self.place()?;
        place.push_str(": no line of a table")?;
        self.tally.differ(place.as_str(), line)
    }

    /// Begins another row if a question was asked of the present one.
    fn begin(&mut self) {
        if self.is_asked {
            self.row = R::new(self.alloc);
            self.given = nothing_given(self.alloc);
            self.is_asked = false;
        }
    }

    /// Asks a question, and compares its answer with what is expected if its line is asked for.
    /// The answer is `as above` if it is what lines before expect of requests.
    fn ask(
        &mut self,
        rt: &HostRuntime,
        lines: &Lines<'_>,
        question: &str,
        expected: &str,
    ) -> Result<(), AllocError> {
        self.is_asked = true;
        let answer = self.row.answer(rt, &self.given, question)?;
        self.given.document.clear();
        if !lines.has(self.line) {
            return Ok(());
        }
        let place = self.place()?;
        self.answers = self.answers.saturating_add(1);
        let above = self.given.answers.as_str();
        let answer = if !above.is_empty() && answer.as_str() == above {
            "as above"
        } else {
            answer.as_str()
        };
        self.tally
            .compare(place.as_str(), question, expected, answer)
    }

    /// The text of a file, whose path is seen from the table's folder; `None` if it is not read.
    fn file_text(&self, rt: &HostRuntime, path: &str) -> Option<String> {
        let folder = match self.path.as_str().rsplit_once("/") {
            Some((folder, _)) => folder,
            None => ".",
        };
        let path = format!(in self.alloc; "{folder}/{path}").ok()?;
        fs::read_to_string(rt, path.as_str()).ok()
    }

    /// Adds a text of that name; the document `d` belongs to the question after it and begins no
    /// row.
    fn add_whole(&mut self, name: &str, text: &str) -> Result<(), AllocError> {
        if name == "d" {
            return join(&mut self.given.document, "\n", text);
        }
        self.begin();
        self.given.begin(self.alloc, name, text)
    }

    /// Adds a line `NAME| TEXT`; the document `d` belongs to the question after it and begins no
    /// row.
    fn add_line(&mut self, name: &str, text: &str) -> Result<(), AllocError> {
        let text = text.strip_prefix(" ").unwrap_or(text);
        if name == "d" {
            return join(&mut self.given.document, "\n", text);
        }
        self.begin();
        self.given.add_line(self.alloc, name, text)
    }

    /// Adds what a line `text STRING` or `text STRING times COUNT` says, whose string is one of
    /// JSON.
    fn add_text(&mut self, line: &str) -> Result<(), AllocError> {
        self.begin();
        let (text, times) = line.rsplit_once(" times ").unwrap_or((line, "1"));
        match (unquoted(self.alloc, text), times.parse::<u32>()) {
            (Some(text), Ok(times)) => self.given.add_text(self.alloc, text.as_str(), times),
            _ => self.refuse(line),
        }
    }

    /// Adds the file that a line `file NAME PATH` names.
    fn add_file(&mut self, rt: &HostRuntime, line: &str) -> Result<(), AllocError> {
        let (name, path) = line.split_once(" ").unwrap_or((line, ""));
        match self.file_text(rt, path) {
            Some(text) => self.add_whole(name, text.as_str()),
            None => self.refuse(line),
        }
    }

    /// Asks the question of a line: `QUESTION => ANSWER`, `QUESTION: ANSWER`, or
    /// `QUESTION: file PATH` if a file has the answer.
    fn read_question(
        &mut self,
        rt: &HostRuntime,
        lines: &Lines<'_>,
        line: &str,
    ) -> Result<(), AllocError> {
        if let Some((question, expected)) = line.split_once(" => ") {
            return self.ask(rt, lines, question, expected);
        }
        if let Some(question) = line.strip_suffix(" =>") {
            return self.ask(rt, lines, question, "");
        }
        let Some((question, expected)) = line.split_once(":") else {
            return self.refuse(line);
        };
        let expected = expected.trim_start();
        let Some(path) = expected.strip_prefix("file ") else {
            return self.ask(rt, lines, question, expected);
        };
        match self.file_text(rt, path) {
            Some(text) => self.ask(rt, lines, question, text.as_str().trim_end()),
            None => self.refuse(line),
        }
    }

    /// Reads a line.
    fn read(&mut self, rt: &HostRuntime, lines: &Lines<'_>, line: &str) -> Result<(), AllocError> {
        if line.is_empty() || line.starts_with("#") {
            return Ok(());
        }
        let (word, rest) = line.split_once(" ").unwrap_or(("", line));
        match word {
            "text" => return self.add_text(rest),
            "file" => return self.add_file(rt, rest),
            ">" => return self.add_whole(word, rest),
            "<" => {
                self.begin();
                return join(&mut self.given.answers, "\n", rest);
            }
            _ => {}
        }
        match line.split_once("|") {
            Some((name, text)) if !name.contains(" ") => self.add_line(name, text),
            _ => self.read_question(rt, lines, line),
        }
    }

    /// Reads the lines of a file.
    fn read_lines(
        &mut self,
        rt: &HostRuntime,
        lines: &Lines<'_>,
        text: &str,
    ) -> Result<(), AllocError> {
        for line in text.lines() {
            self.line = self.line.wrapping_add(1);
            self.read(rt, lines, line)?;
        }
        Ok(())
    }

    /// Reads what a word says: `FILE`, or `FILE:LINE,LINE..` to compare only the answers to the
    /// questions at these lines. Returns how many answers were compared. It is a difference if
    /// there are none, or fewer than lines.
    pub fn read_file(&mut self, rt: &HostRuntime, word: &str) -> Result<u64, AllocError>
        ensures { IfOk result (λ count. count ≡ 0
            → string_bytes self.new.tally.differences ≢ []) }
    {
        let lines = lines_in(self.alloc, word);
        // a file begins a row, also where no question was asked of the one before
        self.is_asked = true;
        self.begin();
        self.path = String::from_str(self.alloc, lines.path)?;
        self.line = 0;
        self.answers = 0;
        match fs::read_to_string(rt, lines.path) {
            Ok(text) => self.read_lines(rt, &lines, text.as_str())?,
            Err(_) => self.tally.differ(lines.path, "this file is not read")?,
        }
        if self.answers == 0 {
            self.tally.differ(word, "no question is asked")?;
        } else if self.answers < u64::try_from(lines.numbers.len()).unwrap_or(0) {
            self.tally
                .differ(word, "some of these lines are no questions")?;
        }
        Ok(self.answers)
    }
}
