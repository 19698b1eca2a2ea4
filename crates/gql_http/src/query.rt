//! The query of a request's target.
ghost use Rattle.std.specs.Prelude.{◌≡◌, ◌+◌, ◌≤◌, not, drop, length, if◌then◌else◌};
ghost use Rattle.std.specs.List.{list_any, prefix_len};
ghost use Rattle.gql_http.specs.Routes.{is_question_mark, numbered, path_of, has_query, query_in, query_of};

use gql_wire::number_in;

/// What a query asks for.
#[derive(Clone, Copy, Debug, PartialEq, Eq)]
pub enum Query {
    /// There is no query.
    Absent,
    /// `revision=N`: an edit expects this revision.
    Revision(u64),
    /// Another query.
    Other,
}

fn path_len(target: &[u8]) -> usize
    ensures value { result ≡ prefix_len (λ b. not (is_question_mark b)) target.now }
    ensures within { result ≤ length target.now }
{
    target.iter().take_while(|byte| **byte != b'?').count()
}

/// The target up to its first `?`.
pub fn path_of(target: &[u8]) -> &[u8]
    ensures { result.now ≡ path_of target.now }
{
    &target[..path_len(target)]
}

fn has_query(target: &[u8]) -> bool
    ensures { result ≡ has_query target.now }
{
    target.iter().any(|byte| *byte == b'?')
}

/// What the bytes of a query ask for.
fn query_in(bytes: &[u8]) -> Query
    ensures { result ≡ query_in bytes.now }
{
    let Some(number) = bytes.strip_prefix(b"revision=".as_slice()) else {
        return Query::Other;
    };
    match number_in(number) {
        Some(revision) => Query::Revision(revision as u64),
        None => Query::Other,
    }
}

/// The query after the first `?` of a target, if there is one.
pub fn query_of(target: &[u8]) -> Query
    ensures { result ≡ query_of target.now }
{
    if has_query(target) {
        query_in(&target[path_of(target).len() + 1..])
    } else {
        Query::Absent
    }
}
