//! How many bytes each call of a peer moves.
use gql_wire::Moves;

/// What `MOST` or `MOST fails after COUNT` says; `None` if MOST is 0.
pub fn moves_in(text: &str) -> Option<Moves> {
    let (most, failing) = match text.split_once(" fails after ") {
        Some((most, count)) => (most, Some(count.parse::<u64>().ok()?)),
        None => (text, None),
    };
    let most = most.parse::<usize>().ok()?;
    if most == 0 {
        return None;
    }
    Some(Moves { most, failing })
}
