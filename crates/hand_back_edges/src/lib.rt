// The lookahead of the edge that an emission goes along, by a table made once for a hand back: no
// emission walks the edges.
//
// In the cores the table has a row of 64 entries for each event in hand, so that a small round clears
// little. A reply of records is read with all its tables in one array of words; there the table has the
// lookaheads themselves, of every pair of processes. Kept as two tables: they differ in what they hold
// and where, not in a type or a size. These are leaves: each asks that the words it touches are there.

#![tactic(auto)]

ghost use Rattle.std.specs.Prelude.{◌≡◌, ◌+◌, ◌-◌, ◌*◌, ◌≤◌, ◌<◌, length, get_or, set};
ghost use Rattle.types.specs.Value.{duration_of, lp_id_of};
ghost use Rattle.records.specs.Records.{edge_at, edges_of};
ghost use Rattle.hand_back_edges.specs.Looks.{look_in_table, Rows, Puts, CanFind, Found, CanLook};
ghost use Rattle.hand_back_edges.specs.Lookaheads.{lookahead_in, PutsLookahead, CanFindLookaheads, FoundLookaheads};

use reply_words::Emission;
use types::{MAX_PROCESSES, SimDuration};

// The edge i goes to the entry `to` of a row; rows are counted from 1. Kept as one above the index, with 0
// for none: a table of Option<u16> is twice as long, and it is cleared for each reply.
fn put_entry(table: &mut [u16], row: usize, to: usize, i: usize)
    requires { (0 < row) × (64 * row ≤ length table.old) × (to < 64) × (i < 512) }
    ensures { table.new ≡ set table.old (64 * (row - 1) + to) (i + 1) }
{
    table[64 * (row - 1) + to] = (i + 1) as u16;
}

// Edge i goes to the row of its source, if that has an event in hand.
fn put_edge<'a>(edges: &'a [u64], i: usize, places: &'a [u64], table: &mut [u16])
    requires { (6 * i + 6 ≤ length edges.now) × (i < 512) × (get_or edges.now (6 * i) 0 < 64) × (get_or edges.now (6 * i + 1) 0 < 64) × Rows places.now (length table.old) }
    ensures { Puts edges.now i places.now table.old table.new }
{
    let from = edges[6 * i] as usize;
    let to = edges[6 * i + 1] as usize;
    let row = places[from] as usize;
    if row != 0 {
        put_entry(table, row, to, i);
    }
}

// The table of the edges that lead from a process with an event in hand. From the end: of two edges
// between the same processes the first is what stays.
pub fn find_edges<'a>(edges: &'a [u64], count: usize, places: &'a [u64], table: &mut [u16])
    requires { CanFind edges.now count places.now table.old }
    ensures { Found edges.now count places.now table.new }
{
    for i in (0..count).rev() {
        put_edge(edges, i, places, table);
    }
}

// The entry `to` of a row.
fn entry_in(table: &[u16], row: usize, to: usize) -> usize
    requires { (0 < row) × (64 * row ≤ length table.now) × (to < 64) }
    ensures { result ≡ get_or table.now (64 * (row - 1) + to) 0 }
{
    usize::from(table[64 * (row - 1) + to])
}

// The lookahead of edge i.
#[tactic(auto, unfolding(records::specs::Records::edge_at))]
fn lookahead_at(edges: &[u64], i: usize) -> SimDuration
    requires { 6 * i + 6 ≤ length edges.now }
    ensures { duration_of result ≡ (edge_at edges.now i).lookahead }
{
    words::duration_in(edges, 6 * i + 2)
}

// The lookahead of the edge that e goes along; 0 where its emitter has no event in hand or no edge leads
// there. Kept as 0, and not None: the rules' own lookahead_along is 0 there, and each contract says that.
pub fn lookahead_of<'a>(
    edges: &'a [u64],
    table: &'a [u16],
    places: &'a [u64],
    e: Emission,
) -> SimDuration
    requires { CanLook edges.now table.now places.now }
    ensures { duration_of result ≡ look_in_table edges.now table.now places.now (lp_id_of e.emitter) (lp_id_of e.destination) }
{
    let from = e.emitter.to_word();
    let to = e.destination.to_word();
    if MAX_PROCESSES <= from || MAX_PROCESSES <= to {
        return SimDuration::zero();
    }
    let row = places[from as usize] as usize;
    if row == 0 {
        return SimDuration::zero();
    }
    let entry = entry_in(table, row, to as usize);
    if entry == 0 {
        return SimDuration::zero();
    }
    lookahead_at(edges, entry - 1)
}

// The lookahead of edge i goes to the pair of its source and destination.
fn put_lookahead(edges: &[u64], i: usize, table: &mut [u64])
    requires { (6 * i + 6 ≤ length edges.now) × (8192 ≤ length table.old) × (get_or edges.now (6 * i) 0 < 64) × (get_or edges.now (6 * i + 1) 0 < 64) }
    ensures { PutsLookahead (edge_at edges.now i) table.old table.new }
{
    let from = edges[6 * i] as usize;
    let to = edges[6 * i + 1] as usize;
    let lookahead = words::tick_in(edges, 6 * i + 2);
    words::put_tick(table, 2 * (64 * from + to), lookahead);
}

// The lookaheads of all pairs of processes, two words each. From the end: of two edges between the same
// processes the first is what stays.
pub fn find_lookaheads(edges: &[u64], count: usize, table: &mut [u64])
    requires { CanFindLookaheads edges.now count table.old }
    ensures { FoundLookaheads (edges_of count edges.now) table.new }
{
    for i in (0..count).rev() {
        put_lookahead(edges, i, table);
    }
}

// The lookahead of the edge that e goes along; 0 where no edge leads there.
pub fn lookahead_in(table: &[u64], e: Emission) -> SimDuration
    requires { length table.now ≡ 8192 }
    ensures { duration_of result ≡ lookahead_in table.now (lp_id_of e.emitter) (lp_id_of e.destination) }
{
    let from = e.emitter.to_word();
    let to = e.destination.to_word();
    if MAX_PROCESSES <= from || MAX_PROCESSES <= to {
        return SimDuration::zero();
    }
    let at = 2 * (64 * from as usize + to as usize);
    words::duration_in(table, at)
}
