// The rows of a build as a host gives them: its checks 5, 7 to 10 and 40. A row is a source and a
// count, and the rows take their destinations in turn from one list. Beside it is that of the
// lookaheads, two words for each destination, the upper half first.
//
// Each check is equal to its definition in rules/Build (specs/Checks.antt).

#![tactic(auto)]

ghost use Rattle.std.specs.Prelude.{◌≡◌, ◌*◌, eqb, length};
ghost use Rattle.rules.specs.Base.{sum};
ghost use Rattle.rules.specs.Build.{topology_rows};
ghost use Rattle.types.specs.Value.{lp_id_of};
ghost use Rattle.build_topology.specs.Lookaheads.{targets_for};
ghost use Rattle.build_topology.specs.Checks.{RowsWellFormed, Unmarked, CheckedRow, RowsPassed, refusal_of, first_refusal};

use build_ids::rising;
use types::{LpId, MAX_EDGES};

// 7 to 10 and 40: why rows are refused, with the values that come with each.
#[derive(Clone, Copy)]
pub enum TopologyRefusal {
    UnknownTopologySource(LpId),
    UnknownTopologyDestination(LpId, LpId),
    SelfLoop(LpId),
    DuplicateNeighbor(LpId, LpId),
    InvalidEdgeLookahead,
}

// The rows as a host lends them: a count for each source, and two words of lookahead for each
// destination. Kept as lists side by side: document 01's build takes ids and rows as lent lists, and what
// bench_rounds exports to C takes them so. Kept without an invariant: 5 is asked of any rows, and what
// asks for rows that passed it (`check` here, and build_edges::write_edges) is named in docs/WHERE.md, so
// that it may take no narrower type.
#[derive(Clone, Copy)]
pub struct Rows<'a> {
    pub sources: &'a [u32],
    pub counts: &'a [u64],
    pub destinations: &'a [u32],
    pub lookaheads: &'a [u64],
}

impl<'a> Rows<'a> {
    // 5: whether the lists are rows at all.
    pub fn is_well_formed(self) -> bool
        ensures { RowsWellFormed self.entry.sources.now self.entry.counts.now self.entry.destinations.now self.entry.lookaheads.now result }
    {
        if self.sources.len() != self.counts.len() {
            return false;
        }
        if !rising(self.sources) {
            return false;
        }
        if !sums_to(self.counts, self.destinations.len()) {
            return false;
        }
        if MAX_EDGES < self.destinations.len() {
            return false;
        }
        self.lookaheads.len() == 2 * self.destinations.len()
    }

    // 7 to 10 and 40, row by row.
    pub fn check(self, n: u64) -> Result<(), TopologyRefusal>
        requires { RowsPassed n self.sources.now self.counts.now self.destinations.now self.lookaheads.now }
        ensures { refusal_of result ≡ first_refusal (topology_rows n self.entry.sources.now self.entry.counts.now (targets_for self.entry.destinations.now self.entry.lookaheads.now)) }
    {
        let mut marks = [0u64; 64];
        let mut at: usize = 0;
        for (i, &id) in self.sources.iter().enumerate() {
            let source = LpId(id);
            if n <= source.to_word() {
                return Err(TopologyRefusal::UnknownTopologySource(source));
            }
            let end = at + self.counts[i] as usize;
            let stamp = i as u64 + 1;
            let low = 2 * at;
            let high = 2 * end;
            check_row(
                &self.destinations[at..end],
                &self.lookaheads[low..high],
                source,
                n,
                &mut marks,
                stamp,
            )?;
            at = end;
        }
        Ok(())
    }
}

// 5: whether the counts add up to the total, by what is left of it. The sum may be above 2^64.
pub fn sums_to(counts: &[u64], total: usize) -> bool
    ensures { result ≡ eqb (sum counts.now) total }
{
    let mut left = total as u64;
    for &k in counts {
        if left < k {
            return false;
        }
        left -= k;
    }
    left == 0
}

// 8, 9, 10 and 40 of one row. `marks[d] == stamp` says that d was met in this row; earlier rows had
// lesser stamps, so that nothing is cleared between rows.
fn check_row(
    destinations: &[u32],
    lookaheads: &[u64],
    source: LpId,
    n: u64,
    marks: &mut [u64],
    stamp: u64,
) -> Result<(), TopologyRefusal>
    requires { Unmarked n marks.old stamp × (length lookaheads.now ≡ 2 * length destinations.now) }
    ensures { CheckedRow n (lp_id_of source) (targets_for destinations.now lookaheads.now) marks.new stamp result }
{
    for (i, &id) in destinations.iter().enumerate() {
        let destination = LpId(id);
        let d = destination.to_word();
        if n <= d {
            return Err(TopologyRefusal::UnknownTopologyDestination(source, destination));
        }
        if destination == source {
            return Err(TopologyRefusal::SelfLoop(source));
        }
        let k = d as usize;
        let mark = marks[k];
        let lookahead = words::duration_in(lookaheads, 2 * i);
        if mark == stamp {
            return Err(TopologyRefusal::DuplicateNeighbor(source, destination));
        }
        if lookahead.is_zero() {
            return Err(TopologyRefusal::InvalidEdgeLookahead);
        }
        marks[k] = stamp;
    }
    Ok(())
}
