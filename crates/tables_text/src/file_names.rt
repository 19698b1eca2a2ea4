//! Texts as names of files.
use gql_ast::FileName;
use std::alloc::Global;

/// The most bytes of a name, where a question gives no number.
pub const LONGEST: usize = 64;

/// A text as the name of a file, where one has at most so many bytes.
pub fn file_name(alloc: Global, text: &str, most: usize) -> Option<FileName> {
    FileName::read(alloc, text, most).ok()?
}

/// A text as the name of a file, where one has at most as many bytes as the question says, or 64.
pub fn name_answer(alloc: Global, text: &str, question: &str) -> Option<String> {
    let most = match question {
        "" => LONGEST,
        _ => question.parse::<usize>().ok()?,
    };
    match file_name(alloc, text, most) {
        Some(name) => String::from_str(alloc, name.as_str()).ok(),
        None => String::from_str(alloc, "no name").ok(),
    }
}
