// The edges of an accepted build as words, six to an edge: those of each row in turn, in the order of
// the lists from which the rows take their destinations and lookaheads.

#![tactic(auto)]

ghost use Rattle.std.specs.Prelude.{◌≡◌, [], ◌∷◌, map, ◌+◌, ◌*◌, ◌≤◌, length};
ghost use Rattle.rules.specs.Build.{edge_to};
ghost use Rattle.types.specs.Value.{duration_of, lp_id_of};
ghost use Rattle.build_topology.specs.Lookaheads.{targets_for};
ghost use Rattle.build_edges.specs.Written.{new_edge, WritesRow, Writable, WritesEdges};

use build_topology::Rows;
use types::{LpId, SimDuration, SimTime};

// All rows.
pub fn write_edges(rows: Rows<'_>, edges: &mut [u64])
    requires { Writable rows.sources.now rows.counts.now rows.destinations.now rows.lookaheads.now edges.old }
    ensures { WritesEdges rows.entry.sources.now rows.entry.counts.now rows.entry.destinations.now rows.entry.lookaheads.now edges.old edges.new }
{
    let mut at: usize = 0;
    for (i, &id) in rows.sources.iter().enumerate() {
        let source = LpId(id);
        let end = at + rows.counts[i] as usize;
        let low = 2 * at;
        let high = 2 * end;
        write_row(
            &rows.destinations[at..end],
            &rows.lookaheads[low..high],
            source,
            edges,
            at,
        );
        at = end;
    }
}

// One row, behind the first `at` edges.
fn write_row(destinations: &[u32], lookaheads: &[u64], source: LpId, edges: &mut [u64], at: usize)
    requires { (length lookaheads.now ≡ 2 * length destinations.now) × (6 * (at + length destinations.now) ≤ length edges.old) }
    ensures { WritesRow at (map (edge_to (lp_id_of source)) (targets_for destinations.now lookaheads.now)) edges.old edges.new }
{
    for (i, &id) in destinations.iter().enumerate() {
        let destination = LpId(id);
        let lookahead = words::duration_in(lookaheads, 2 * i);
        put_edge(edges, at + i, source, destination, lookahead);
    }
}

// Edge i, behind those before it. "Each edge has a bound, at first L": its own lookahead. Kept as words
// of one list: a runtime holds them so in fixed memory, and WritesEdges speaks of its words.
fn put_edge(edges: &mut [u64], i: usize, source: LpId, destination: LpId, lookahead: SimDuration)
    requires { 6 * (i + 1) ≤ length edges.old }
    ensures { WritesRow i (new_edge (lp_id_of source) (lp_id_of destination) (duration_of lookahead) ∷ []) edges.old edges.new }
{
    let bound = SimTime::after_zero(lookahead);
    edges[6 * i] = source.to_word();
    edges[6 * i + 1] = destination.to_word();
    edges[6 * i + 2] = lookahead.hi;
    edges[6 * i + 3] = lookahead.lo;
    words::put_tick(edges, 6 * i + 4, bound);
}
