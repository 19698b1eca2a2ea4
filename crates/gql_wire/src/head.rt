//! The head of a request: whether it is accepted, and how long its body is.
ghost use Rattle.std.specs.Prelude.{◌≡◌, ◌+◌, ◌<◌, ◌≤◌, ℕ, length, map, All, IsTrue, IfSome, IfNone, codes, take, drop, slice_range};
ghost use Rattle.std.specs.Str.{str_eq_ignore_ascii_case, bytes_eq};
ghost use Rattle.std.specs.List.{list_all, list_any, prefix_len};
ghost use Rattle.httparse.specs.Grammar.{is_ows, skip_ows};
ghost use Rattle.httparse.specs.Spans.{IsRequestWithin, header_bytes, span_bytes, IsWithin, IsHeaderWithin};
ghost use Rattle.gql_wire.specs.Head.{IsNoHead, HasOutcome, number_of, is_named, values_of, content_length, is_item_byte, items_of, is_close, names_close, is_head, outcome_of};
ghost use Rattle.gql_wire.specs.Held.{next_length, IsWholeHead, parts_at, outcome_from, AreSpansWithin};

use crate::number::number_in;
use crate::part::{front, rest_from};
use httparse::Status;
use httparse::spans::{EMPTY_HEADER_SPAN, HeaderSpan, RequestSpans, Span, parse_request};

/// The most fields that a head may have.
const MAX_FIELDS: usize = 32;

/// Why a head is refused. After each refusal the connection closes.
#[derive(Clone, Copy, Debug, PartialEq, Eq)]
pub enum HeadRefusal {
    /// 301: it is not a head of HTTP/1.0 or 1.1, or has more than 32 fields.
    BadHead,
    /// 302: it does not end within 8,192 bytes.
    LongHead,
    /// 303: its body has more bytes than the limit of bodies, which is 262,144 if none is given.
    LongBody,
    /// 304: it has a field Transfer-Encoding.
    TransferCoding,
    /// 307: a Content-Length is not 1 to 18 digits, or two differ in value.
    BadLength,
}

impl HeadRefusal {
    ghost use Rattle.gql_wire.specs.Head.{number_of};

    /// The error code of the refusal.
    pub fn number(self) -> u16
        ensures { result ≡ number_of self }
    {
        match self {
            HeadRefusal::BadHead => 301,
            HeadRefusal::LongHead => 302,
            HeadRefusal::LongBody => 303,
            HeadRefusal::TransferCoding => 304,
            HeadRefusal::BadLength => 307,
        }
    }
}

/// The outcome of a head: a refusal, or a request with these parts. The spans lie in the head.
#[derive(Clone, Copy, Debug)]
pub enum HeadOutcome {
    Refuse {
        refusal: HeadRefusal,
        bodiless: bool,
    },
    Expects {
        method: Span,
        target: Span,
        length: usize,
        closing: bool,
    },
}

/// Whether the two are equal, whatever the case of their letters.
fn is_same_word(name: &[u8], word: &[u8]) -> bool
    ensures { result ≡ str_eq_ignore_ascii_case name.now word.now }
{
    name.eq_ignore_ascii_case(word)
}

/// Whether all bytes are spaces and tabs.
fn are_blanks(bytes: &[u8]) -> bool
    ensures { result ≡ list_all is_ows bytes.now }
{
    bytes.iter().all(|byte| *byte == b' ' || *byte == b'\t')
}

/// The body length after one more value of Content-Length, after the earlier values gave `earlier`.
/// `None`: the value is not a number, or differs from the earlier ones.
fn next_length(earlier: Option<usize>, value: &[u8]) -> Option<usize>
    ensures { result ≡ next_length earlier value.now }
{
    let length = number_in(value)?;
    match earlier {
        Some(other) if other != length => None,
        _ => Some(length),
    }
}

/// The length of the body by the fields Content-Length: 0 without one. `None`: they do not agree.
fn body_length(head: &[u8], fields: &[HeaderSpan]) -> Option<usize>
    requires { All (IsHeaderWithin (length head.now)) fields.now }
    ensures { result ≡ content_length
        (values_of (codes "content-length") (map (header_bytes head.now) fields.now)) }
{
    let mut earlier = None;
    for field in fields {
        if is_same_word(field.name.of(head), b"content-length") {
            let Some(length) = next_length(earlier, field.value.of(head)) else {
                return None;
            };
            earlier = Some(length);
        }
    }
    Some(earlier.unwrap_or(0))
}

/// Whether a field has this name.
fn has_field(head: &[u8], fields: &[HeaderSpan], word: &[u8]) -> bool
    requires { All (IsHeaderWithin (length head.now)) fields.now }
    ensures { result ≡ list_any (is_named word.now) (map (header_bytes head.now) fields.now) }
{
    for field in fields {
        if is_same_word(field.name.of(head), word) {
            return true;
        }
    }
    false
}

/// The bytes after the spaces and tabs at the front.
fn skip_blanks(bytes: &[u8]) -> &[u8]
    ensures { result.now ≡ skip_ows bytes.now }
{
    let mut rest = bytes;
    'blanks: while let [b' ' | b'\t', after @ ..] = rest {
        rest = after;
    }
    rest
}

/// Whether the item is `close`, with spaces and tabs around it.
fn is_close_item(item: &[u8]) -> bool
    ensures { result ≡ is_close item.now }
{
    let word = skip_blanks(item);
    word.len() >= 5 && is_same_word(&word[..5], b"close") && are_blanks(&word[5..])
}

/// How many bytes the list has before its first comma.
fn first_item(list: &[u8]) -> usize
    ensures { result ≡ prefix_len is_item_byte list.now }
{
    list.iter().take_while(|byte| **byte != b',').count()
}

/// Whether `close` is an item of the list.
#[tactic(auto, using(crate::proofs::Fields::close_first, crate::proofs::Fields::close_one))]
fn has_close(value: &[u8]) -> bool
    ensures { result ≡ names_close value.now }
{
    let mut rest = value;
    let mut end = first_item(rest);
    'items: while end < rest.len() {
        if is_close_item(front(rest, end)) {
            return true;
        }
        rest = rest_from(rest, end + 1);
        end = first_item(rest);
    }
    is_close_item(rest)
}

/// Whether a field Connection has the item `close`.
fn asks_to_close(head: &[u8], fields: &[HeaderSpan]) -> bool
    requires { All (IsHeaderWithin (length head.now)) fields.now }
    ensures { result ≡ list_any names_close
        (values_of (codes "connection") (map (header_bytes head.now) fields.now)) }
{
    for field in fields {
        if is_same_word(field.name.of(head), b"connection") && has_close(field.value.of(head)) {
            return true;
        }
    }
    false
}

/// Whether the method is HEAD.
fn is_head_method(method: &[u8]) -> bool
    ensures { result ≡ is_head method.now }
{
    method == b"HEAD".as_slice()
}

/// Where the parts of the head are, if the bytes are one head and nothing more.
fn whole_head(head: &[u8], fields: &mut [HeaderSpan]) -> Option<RequestSpans>
    requires { length fields.old ≤ MAX_FIELDS }
    ensures some { IfSome result (λ spans. IsWholeHead head.now fields.new spans) }
    ensures none { IfNone result (IsNoHead (length fields.old) head.now) }
    ensures within { IfSome result (λ spans. IsRequestWithin head.now fields.new spans) }
{
    match parse_request(head, fields) {
        Ok(Status::Complete(spans)) if spans.len == head.len() => Some(spans),
        _ => None,
    }
}

/// The outcome of a head whose parts are at these spans. `limit` is the most bytes of a body.
fn outcome_of_parts(
    limit: usize,
    head: &[u8],
    spans: RequestSpans,
    fields: &[HeaderSpan],
) -> HeadOutcome
    requires method { IsWithin (length head.now) spans.method }
    requires path { IsWithin (length head.now) spans.path }
    requires fields_within { All (IsHeaderWithin (length head.now)) fields.now }
    ensures outcome_is { outcome_from head.now result
        ≡ outcome_of limit (parts_at head.now fields.now spans) }
    ensures within { AreSpansWithin limit (length head.now) result }
{
    let bodiless = is_head_method(spans.method.of(head));
    if has_field(head, fields, b"transfer-encoding") {
        return HeadOutcome::Refuse {
            refusal: HeadRefusal::TransferCoding,
            bodiless,
        };
    }
    match body_length(head, fields) {
        None => HeadOutcome::Refuse {
            refusal: HeadRefusal::BadLength,
            bodiless,
        },
        Some(length) if length > limit => HeadOutcome::Refuse {
            refusal: HeadRefusal::LongBody,
            bodiless,
        },
        Some(length) => HeadOutcome::Expects {
            method: spans.method,
            target: spans.path,
            length,
            closing: spans.version == 0 || asks_to_close(head, fields),
        },
    }
}

/// The outcome of these bytes, as a head. `limit` is the most bytes of a body.
pub fn read_head(limit: usize, head: &[u8]) -> HeadOutcome
    ensures outcome_is { HasOutcome limit head.now (outcome_from head.now result) }
    ensures within { AreSpansWithin limit (length head.now) result }
{
    let mut fields = [EMPTY_HEADER_SPAN; MAX_FIELDS];
    match whole_head(head, &mut fields) {
        None => HeadOutcome::Refuse {
            refusal: HeadRefusal::BadHead,
            bodiless: false,
        },
        Some(spans) => outcome_of_parts(limit, head, spans, &fields[..spans.headers]),
    }
}
