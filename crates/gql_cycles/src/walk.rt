//! The walk over a graph that finds the nodes on cycles.

ghost use Rattle.std.specs.Prelude.{◌≡◌, ◌≢◌, ◌<◌, ◌≤◌, ◌+◌, ◌++◌, ◌∷◌, ◌↔◌, [], ℕ, map, IfOk, OnOk, IsTrue, length, take, slice_set, slice_index_or, replicate, Contains, ◌⊎◌};
ghost use Rattle.gql_cycles.specs.Nodes.{IsEdge, IsGraph, MarksCycles};
ghost use Rattle.gql_cycles.specs.Path.{Ends, IsWalk, KeepsMet, KeepsUpTo, Meets, Rises, Advances, closed_from, is_marked};

use std::alloc::{AllocError, Global};

/// What the walk knows of a node.
#[derive(Clone, Copy)]
pub enum State {
    /// The walk has not met it.
    New,
    /// It is on the path, at that position.
    OnPath(usize),
    /// All edges from it were followed, and it is known whether it is on a cycle.
    Closed(bool),
}

/// A walk along the edges.
///
/// The path is divided into components. The nodes of a component all lead to each other.
#[derive(Drop)]
pub struct Walk {
    /// The state of each node.
    pub states: Vec<State>,
    /// How many edges of each node were followed, which is the index of its next edge.
    pub next_edges: Vec<usize>,
    /// The nodes of the path.
    pub path: Vec<usize>,
    /// The positions at which the components of the path begin.
    pub bounds: Vec<usize>,
    /// The positions whose edges are still to be followed, the last first.
    pub calls: Vec<usize>,
}

impl State {
    /// Whether the node is on a cycle.
    fn is_marked(self) -> bool
        ensures { result ≡ is_marked self }
    {
        matches!(self, State::Closed(true))
    }
}

/// A walk that has met nothing.
fn new_walk(alloc: Global, count: usize) -> Result<Walk, AllocError>
    ensures states { IfOk result (λ walk. walk.states.items ≡ replicate count State.New) }
    ensures next_edges { IfOk result (λ walk. walk.next_edges.items ≡ replicate count 0) }
    ensures path { IfOk result (λ walk. walk.path.items ≡ []) }
    ensures bounds { IfOk result (λ walk. walk.bounds.items ≡ []) }
    ensures calls { IfOk result (λ walk. walk.calls.items ≡ []) }
{
    Ok(Walk {
        states: vec![in alloc; State::New; count]?,
        next_edges: vec![in alloc; 0; count]?,
        path: Vec::new(alloc),
        bounds: Vec::new(alloc),
        calls: Vec::new(alloc),
    })
}

/// Whether the node is one of these.
fn is_among(nodes: &[usize], node: usize) -> bool
    ensures { IsTrue result ↔ Contains nodes.now node }
{
    nodes.iter().any(|p| *p == node)
}

/// Whether a component of this many nodes is a cycle. If it is a single node, these are its edges.
fn is_cycle(size: usize, node: usize, ends: &[usize]) -> bool
    ensures { IsTrue result ↔ ((1 < size) ⊎ Contains ends.now node) }
{
    size > 1 || is_among(ends, node)
}

/// Whether the node is the last of these.
fn is_last(nodes: &[usize], node: usize) -> bool
    ensures { IsTrue result ↔ Ends nodes.now node }
{
    let count = nodes.len();
    count > 0 && nodes[count - 1] == node
}

/// Puts a new node onto the path, as a component of its own.
fn enter(walk: &mut Walk, node: usize) -> Result<(), AllocError>
    requires { node < length walk.old.states.items }
    ensures states { OnOk result (walk.new.states.items
        ≡ slice_set walk.old.states.items node (State.OnPath (length walk.old.path.items))) }
    ensures next_edges { OnOk result (walk.new.next_edges.items ≡ walk.old.next_edges.items) }
    ensures path { OnOk result (walk.new.path.items ≡ walk.old.path.items ++ node ∷ []) }
    ensures bounds { OnOk result (walk.new.bounds.items ≡ walk.old.bounds.items
        ++ length walk.old.path.items ∷ []) }
    ensures calls { OnOk result (walk.new.calls.items ≡ walk.old.calls.items
        ++ length walk.old.path.items ∷ []) }
{
    let top = walk.path.len();
    walk.path.push(node)?;
    walk.bounds.push(top)?;
    walk.calls.push(top)?;
    walk.states[node] = State::OnPath(top);
    Ok(())
}

/// Removes the bounds above a position: the components that begin there are joined with the
/// component below.
fn keep_up_to(bounds: &mut Vec<usize>, position: usize)
    requires { Rises bounds.old.items }
    ensures { KeepsUpTo position bounds.old.items bounds.new.items }
{
    let mut keep = bounds.len();
    'above: while keep > 0 && bounds[keep - 1] > position {
        keep -= 1;
    }
    bounds.truncate(keep);
}

/// Goes to the end of an edge, which is new, on the path, or closed.
fn meet(edges: &[Vec<usize>], walk: &mut Walk, at: usize, end: usize) -> Result<(), AllocError>
    requires walk { IsWalk (map (λ v. v.items) edges.now) walk.old }
    requires at { Ends walk.old.calls.items at }
    requires end { end < length edges.now }
    requires edge { IsEdge (map (λ v. v.items) edges.now)
        (slice_index_or walk.old.path.items at 0) end }
    ensures { OnOk result (Meets (map (λ v. v.items) edges.now) at end walk.old walk.new) }
{
    match walk.states[end] {
        State::New => {
            enter(walk, end)?;
            Ok(())
        }
        State::OnPath(position) => {
            keep_up_to(&mut walk.bounds, position);
            Ok(())
        }
        State::Closed(_) => Ok(()),
    }
}

/// Closes the nodes of the path from `start` on.
fn close(states: &mut [State], path: &[usize], start: usize, mark: bool)
    requires start { start ≤ length path.now }
    requires there { (v i : ℕ) → slice_index_or states.old v State.New ≡ State.OnPath i
        → (i < length path.now) × (slice_index_or path.now i 0 ≡ v) }
    requires placed { (i : ℕ) → i < length path.now
        → slice_index_or states.old (slice_index_or path.now i 0) State.New ≡ State.OnPath i }
    ensures { (v : ℕ) → slice_index_or states.new v State.New
        ≡ closed_from start mark (slice_index_or states.old v State.New) }
{
    for i in start..path.len() {
        states[path[i]] = State::Closed(mark);
    }
}

/// The node at a position of the path that is still followed.
fn node_of(edges: &[Vec<usize>], walk: &Walk, at: usize) -> usize
    requires walk { IsWalk (map (λ v. v.items) edges.now) walk.now }
    requires at { Ends walk.now.calls.items at }
    ensures value { result ≡ slice_index_or walk.now.path.items at 0 }
    ensures edges { result < length edges.now }
    ensures next_edges { result < length walk.now.next_edges.items }
    ensures path { at < length walk.now.path.items }
{
    walk.path[at]
}

/// The nodes to which a node has edges.
fn ends_of(edges: &[Vec<usize>], node: usize) -> &[usize]
    requires { node < length edges.now }
    ensures { result.now ≡ slice_index_or (map (λ v. v.items) edges.now) node [] }
{
    &edges[node]
}

/// Follows the next edge of the node at the end of the path.
fn follow_edge(edges: &[Vec<usize>], walk: &mut Walk, at: usize) -> Result<(), AllocError>
    requires graph { IsGraph (map (λ v. v.items) edges.now) }
    requires walk { IsWalk (map (λ v. v.items) edges.now) walk.old }
    requires at { Ends walk.old.calls.items at }
    requires more { slice_index_or walk.old.next_edges.items
        (slice_index_or walk.old.path.items at 0) 0
        < length (slice_index_or (map (λ v. v.items) edges.now)
        (slice_index_or walk.old.path.items at 0) []) }
    ensures { OnOk result (Advances (map (λ v. v.items) edges.now) walk.old walk.new) }
{
    let node = node_of(edges, walk, at);
    let next_edges = walk.next_edges[node];
    let end = ends_of(edges, node)[next_edges];
    meet(edges, walk, at, end)?;
    walk.next_edges[node] = next_edges + 1;
    Ok(())
}

/// Leaves a node whose edges were all followed, and closes the component that begins there.
fn leave(edges: &[Vec<usize>], walk: &mut Walk, at: usize)
    requires walk { IsWalk (map (λ v. v.items) edges.now) walk.old }
    requires at { Ends walk.old.calls.items at }
    requires done { length (slice_index_or (map (λ v. v.items) edges.now)
        (slice_index_or walk.old.path.items at 0) [])
        ≤ slice_index_or walk.old.next_edges.items (slice_index_or walk.old.path.items at 0) 0 }
    ensures { Advances (map (λ v. v.items) edges.now) walk.old walk.new }
{
    let node = node_of(edges, walk, at);
    walk.calls.pop();
    if is_last(&walk.bounds, at) {
        walk.bounds.pop();
        let mark = is_cycle(walk.path.len() - at, node, ends_of(edges, node));
        close(&mut walk.states, &walk.path, at, mark);
        walk.path.truncate(at);
    }
}

/// One step of the walk.
fn step(edges: &[Vec<usize>], walk: &mut Walk, at: usize) -> Result<(), AllocError>
    requires graph { IsGraph (map (λ v. v.items) edges.now) }
    requires walk { IsWalk (map (λ v. v.items) edges.now) walk.old }
    requires at { Ends walk.old.calls.items at }
    ensures { OnOk result (Advances (map (λ v. v.items) edges.now) walk.old walk.new) }
{
    let node = node_of(edges, walk, at);
    if walk.next_edges[node] < ends_of(edges, node).len() {
        follow_edge(edges, walk, at)?;
    } else {
        leave(edges, walk, at);
    }
    Ok(())
}

/// Puts a node onto the path that was not met.
fn begin(edges: &[Vec<usize>], walk: &mut Walk, root: usize) -> Result<(), AllocError>
    requires walk { IsWalk (map (λ v. v.items) edges.now) walk.old }
    requires empty { walk.old.calls.items ≡ [] }
    requires root { root < length edges.now }
    ensures walk { OnOk result (IsWalk (map (λ v. v.items) edges.now) walk.new) }
    ensures met { OnOk result (KeepsMet walk.old walk.new) }
    ensures root { OnOk result (slice_index_or walk.new.states.items root State.New ≢ State.New) }
{
    match walk.states[root] {
        State::New => {
            enter(walk, root)?;
            Ok(())
        }
        State::OnPath(_) => Ok(()),
        State::Closed(_) => Ok(()),
    }
}

/// Walks along all edges that can be reached from the node.
fn walk_from(edges: &[Vec<usize>], walk: &mut Walk, root: usize) -> Result<(), AllocError>
    requires graph { IsGraph (map (λ v. v.items) edges.now) }
    requires walk { IsWalk (map (λ v. v.items) edges.now) walk.old }
    requires empty { walk.old.calls.items ≡ [] }
    requires root { root < length edges.now }
    ensures walk { OnOk result (IsWalk (map (λ v. v.items) edges.now) walk.new) }
    ensures empty { OnOk result (walk.new.calls.items ≡ []) }
    ensures met { OnOk result (KeepsMet walk.old walk.new) }
    ensures root { OnOk result (slice_index_or walk.new.states.items root State.New ≢ State.New) }
{
    begin(edges, walk, root)?;
    'steps: while !walk.calls.is_empty() {
        let at = walk.calls[walk.calls.len() - 1];
        step(edges, walk, at)?;
    }
    Ok(())
}

/// Which states are those of nodes on cycles.
fn marks_of(alloc: Global, states: &[State]) -> Result<Vec<bool>, AllocError>
    ensures { IfOk result (λ marks. marks.items ≡ map is_marked states.now) }
{
    states.iter().map(|s| s.is_marked()).collect(alloc)
}

/// Which nodes have a trail back to themselves, by one walk along all edges.
pub fn cycle_marks(alloc: Global, edges: &[Vec<usize>]) -> Result<Vec<bool>, AllocError>
    requires { IsGraph (map (λ v. v.items) edges.now) }
    ensures { IfOk result (λ marks. MarksCycles (map (λ v. v.items) edges.now) marks.items) }
{
    let mut walk = new_walk(alloc, edges.len())?;
    for root in 0..edges.len() {
        walk_from(edges, &mut walk, root)?;
    }
    let marks = marks_of(alloc, &walk.states)?;
    Ok(marks)
}
