// What is asked of the edges of a state, in one pass over flat words, in any order of the edges. Which
// pairs were seen stands in a table of 64 words: bit b of word a, for an edge from a to b.
//
// An edge is six words (specs/Records.antt of records), and their words and count are kept apart, as in
// records. These are leaves: each asks that the words it touches are there.

#![tactic(auto)]

ghost use Rattle.std.specs.Prelude.{◌≡◌, false, ◌+◌, ◌*◌, ◌≤◌, ◌<◌, length};
ghost use Rattle.rules.specs.Pending.{joins, route};
ghost use Rattle.rules.specs.Foreign.{unknown_id_edge, without_lookahead};
ghost use Rattle.records.specs.Records.{edge_at, edges_of};
ghost use Rattle.edges.specs.Routes.{HasRoute, Marked, SeenOrMarked};
ghost use Rattle.edges.specs.Invalid.{InvalidEdge, InvalidEdges};

// Whether a route leads from a to b: to itself, or along an edge. Ids are whole words here.
pub fn has_route(edges: &[u64], count: usize, a: u64, b: u64) -> bool
    requires { 6 * count ≤ length edges.now }
    ensures { result ≡ route (edges_of count edges.now) a b }
{
    if a == b {
        return true;
    }
    for i in 0..count {
        if is_edge(edges, i, a, b) {
            return true;
        }
    }
    false
}

// Whether edge i leads from a to b.
fn is_edge(edges: &[u64], i: usize, a: u64, b: u64) -> bool
    requires { 6 * i + 6 ≤ length edges.now }
    ensures { result ≡ joins a b (edge_at edges.now i) }
{
    edges[6 * i] == a && edges[6 * i + 1] == b
}

// 11, of the edges, in one pass from the end, as the rules tell a second edge by those behind it:
// whether an edge has an end that is not below n or a lookahead of 0, stands twice or leads to its own
// source. Where none does, `made` has the record of the edges.
pub fn invalid_edges(edges: &[u64], count: usize, n: u64, made: &mut [u64]) -> bool
    requires { (6 * count ≤ length edges.now) × (n ≤ 64) × (length made.old ≡ 256) }
    ensures { InvalidEdges n (edges_of count edges.now) made.old made.new result }
{
    let mut seen = [0u64; 64];
    inbound::reset(made, n as usize);
    for i in (0..count).rev() {
        if invalid_edge(edges, i, n, &mut seen) {
            return true;
        }
        inbound::lower(edges, i, made);
    }
    false
}

// Whether edge i has an end that is not below n or a lookahead of 0, leads to its own source or its pair
// was seen; if none of these, it is seen now.
fn invalid_edge(edges: &[u64], i: usize, n: u64, seen: &mut [u64]) -> bool
    requires { (6 * i + 6 ≤ length edges.now) × (n ≤ 64) × (length seen.old ≡ 64) }
    ensures { InvalidEdge n (edge_at edges.now i) seen.old seen.new result }
{
    if unknown_id_edge(edges, i, n) {
        return true;
    }
    if without_lookahead(edges, i) {
        return true;
    }
    seen_or_mark(edges, i, seen)
}

// Whether edge i has an end that is not below n.
fn unknown_id_edge(edges: &[u64], i: usize, n: u64) -> bool
    requires { 6 * i + 6 ≤ length edges.now }
    ensures { result ≡ unknown_id_edge n (edge_at edges.now i) }
{
    n <= edges[6 * i] || n <= edges[6 * i + 1]
}

// Whether edge i has a lookahead of 0.
fn without_lookahead(edges: &[u64], i: usize) -> bool
    requires { 6 * i + 6 ≤ length edges.now }
    ensures { result ≡ without_lookahead (edge_at edges.now i) }
{
    let lookahead = words::duration_in(edges, 6 * i + 2);
    lookahead.is_zero()
}

// Whether edge i leads to its own source or its pair was seen; if neither, it is seen now.
fn seen_or_mark(edges: &[u64], i: usize, seen: &mut [u64]) -> bool
    requires { (6 * i + 6 ≤ length edges.now) × (length seen.old ≡ 64) × (unknown_id_edge 64 (edge_at edges.now i) ≡ false) }
    ensures { SeenOrMarked (edge_at edges.now i) seen.old seen.new result }
{
    if has_route_in(seen, edges[6 * i], edges[6 * i + 1]) {
        return true;
    }
    mark_route(edges, i, seen);
    false
}

// Edge i is put into the table.
#[tactic(auto, using(crate::proofs::Marks::source_below, crate::proofs::Marks::destination_below))]
fn mark_route(edges: &[u64], i: usize, routes: &mut [u64])
    requires { (6 * i + 6 ≤ length edges.now) × (length routes.old ≡ 64) × (unknown_id_edge 64 (edge_at edges.now i) ≡ false) }
    ensures { Marked (edge_at edges.now i) routes.old routes.new }
{
    let from = edges[6 * i];
    let to = edges[6 * i + 1];
    routes[from as usize] |= 1u64 << to;
}

// Whether a route leads from a to b, by the table.
pub fn has_route_in(routes: &[u64], a: u64, b: u64) -> bool
    requires { (length routes.now ≡ 64) × (a < 64) × (b < 64) }
    ensures { HasRoute routes.now a b result }
{
    a == b || (routes[a as usize] >> b) % 2 == 1
}
