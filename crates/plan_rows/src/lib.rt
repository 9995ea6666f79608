// The lists that build takes, made of the edges of a plan file: ids, rows, destinations and lookaheads.
//
// Where sources never fall, build's rows follow from how many edges each source has.

#![tactic(auto)]

ghost use Rattle.std.specs.Prelude.{◌≡◌, [], ℕ, ◌+◌, ◌*◌, ◌<◌, ◌≤◌, leb, length, take, get_or};
ghost use Rattle.rules.specs.Base.{rising, up_to};
ghost use Rattle.plan_rows.specs.Rows.{ReadsEdges, ReadsLookaheads, Rowable, MakesRows, Tallies, has_row, row_if, table_rows, PutsRows};

use types::SimTime;

// The edges of a file, of 140 bits each: source and destination have six bits each, and the first stands
// at 337.
pub fn read_edges(s: &[u8], count: usize, sources: &mut [u32], destinations: &mut [u32])
    requires count_in_bounds { (337 + 140 * count ≤ length s.now * 8) × (337 + 140 * count ≤ 131072) }
    requires count_in_bounds_2 { (count ≤ length sources.old) × (count ≤ length destinations.old) }
    ensures { ReadsEdges s.now count sources.new destinations.new }
{
    for i in 0..count {
        let e = bits::read(s, 337 + 140 * i, 12);
        sources[i] = (e / 64) as u32;
        destinations[i] = (e % 64) as u32;
    }
}

// Their lookaheads, "128 bits, behind the destination": the first stands at 349. Two words each, the
// upper half first.
pub fn read_lookaheads(s: &[u8], count: usize, lookaheads: &mut [u64])
    requires count_in_bounds { (337 + 140 * count ≤ length s.now * 8) × (length s.now ≤ 16384) }
    requires count_in_bounds_2 { 2 * count ≤ length lookaheads.old }
    ensures { ReadsLookaheads s.now count lookaheads.new }
{
    for i in 0..count {
        let lookahead = plan_reader::duration_at(s, 349 + 140 * i);
        words::put_tick(lookaheads, 2 * i, SimTime::after_zero(lookahead));
    }
}

// "edges stand by rising source": whether sources never fall.
pub fn never_fall(sources: &[u32]) -> bool
    ensures { result ≡ rising leb sources.now }
{
    sources.is_sorted_by(|x, y| x <= y)
}

// The ids 0 to n - 1.
pub fn put_ids(ids: &mut [u32], n: usize)
    requires { (n ≤ 64) × (n ≤ length ids.old) }
    ensures { take n ids.new ≡ up_to n }
{
    for i in 0..n {
        ids[i] = i as u32;
    }
}

// How many edges each source has.
fn tally(from: &[u32], table: &mut [u64])
    requires { ((i : ℕ) → get_or from.now i 0 < 64) × Tallies [] table.old }
    ensures { Tallies from.now table.new }
{
    for source in from {
        table[*source as usize] += 1;
    }
}

// Whether q has a row: it is a process, or it has edges.
#[tactic(auto, unfolding(crate::specs::Rows::has_row))]
fn has_row(n: usize, q: usize, k: u64) -> bool
    ensures { result ≡ has_row n q k }
{
    q < n || k != 0
}

// q's row, if it has one, behind the first r; how many there are then.
fn put_row(n: usize, q: usize, k: u64, sources: &mut [u32], counts: &mut [u64], r: usize) -> usize
    requires { (q < 64) × (r < length sources.old) × (r < length counts.old) }
    ensures { PutsRows sources.old counts.old r (row_if (has_row n q k) q k) sources.new counts.new result }
{
    if has_row(n, q, k) {
        sources[r] = q as u32;
        counts[r] = k;
        return r + 1;
    }
    r
}

// The rows of a table; how many there are.
fn write_rows(n: usize, table: &[u64], sources: &mut [u32], counts: &mut [u64]) -> usize
    requires { (length table.now ≡ 64) × (64 ≤ length sources.old) × (64 ≤ length counts.old) }
    ensures { PutsRows sources.old counts.old 0 (table_rows n table.now 64) sources.new counts.new result }
{
    let mut r: usize = 0;
    for q in 0..64 {
        r = put_row(n, q, table[q], sources, counts, r);
    }
    r
}

// The rows of a plan with n processes and edges from these sources; how many there are.
pub fn put_rows(n: usize, from: &[u32], sources: &mut [u32], counts: &mut [u64]) -> usize
    requires { Rowable n from.now sources.old counts.old }
    ensures { MakesRows n from.now sources.new counts.new result }
{
    let mut table = [0u64; 64];
    tally(from, &mut table);
    write_rows(n, &table, sources, counts)
}
