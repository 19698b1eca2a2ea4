//! Answers as transcripts write them: `STATUS BODY`, with `allow METHODS` and `close` after the
//! status if the head says so.
use crate::bytes::characters;
use crate::heads::answer_head_bytes;
use std::alloc::Global;
use table_rows::join;

/// What the head of an answer says.
#[derive(Drop)]
struct Head<'a> {
    status: &'a str,
    methods: &'a str,
    length: usize,
    closes: bool,
}

/// Reads the lines of a head; `None` if a field is not one that answers have.
fn head_in(text: &str) -> Option<Head<'_>> {
    let (status, fields) = text.split_once("\r\n")?;
    let (_, status) = status.split_once(" ")?;
    let (status, _) = status.split_once(" ")?;
    let mut head = Head {
        status,
        methods: "",
        length: 0,
        closes: false,
    };
    for field in fields.split("\r\n") {
        match field.split_once(": ")? {
            ("Content-Type", _) => {}
            ("Allow", methods) => head.methods = methods,
            ("Content-Length", length) => head.length = length.parse::<usize>().ok()?,
            ("Connection", "close") => head.closes = true,
            _ => return None,
        }
    }
    Some(head)
}

/// The first answer of a text as a transcript writes it, and the text after it. `None` if the
/// bytes of the head are not those of such an answer.
fn first_answer(alloc: Global, text: &str) -> Option<(String, &str)> {
    let (head, _) = text.split_once("\r\n\r\n")?;
    let head = head_in(head)?;
    let bytes = answer_head_bytes(
        alloc,
        &[],
        head.status,
        head.methods,
        head.length,
        head.closes,
    )?;
    let rest = text.strip_prefix(characters(alloc, bytes.as_slice()).ok()?.as_str())?;
    let mut written = String::from_str(alloc, head.status).ok()?;
    if !head.methods.is_empty() {
        let methods = head.methods;
        let allow = format!(in alloc; " allow {methods}").ok()?;
        written.push_str(allow.as_str()).ok()?;
    }
    if head.closes {
        written.push_str(" close").ok()?;
    }
    let length = head.length;
    if !rest.starts_with("{") {
        let bodiless = format!(in alloc; " no body of {length} bytes").ok()?;
        written.push_str(bodiless.as_str()).ok()?;
        return Some((written, rest));
    }
    join(&mut written, " ", rest.get(..length)?).ok()?;
    Some((written, rest.get(length..)?))
}

/// The answers of a stream as a transcript writes them; `None` if its bytes are not those of
/// answers.
pub fn written_answers(alloc: Global, bytes: &[u8], between: &str) -> Option<String> {
    let text = characters(alloc, bytes).ok()?;
    let mut rest = text.as_str();
    let mut all = String::new(alloc);
    for _ in 0..bytes.len() {
        if rest.is_empty() {
            break;
        }
        let (answer, after) = first_answer(alloc, rest)?;
        join(&mut all, between, answer.as_str()).ok()?;
        rest = after;
    }
    Some(all)
}
