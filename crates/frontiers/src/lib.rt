// First pending ticks of all processes, the lesser of frontier and first tick for each, and what an
// advance raises, each in one pass over flat words. Frontiers are read from the record (crate inbound).
//
// A table of first ticks or input frontiers has room for a tick of each of 64 processes, two words each,
// and holds those of the n that there are. These are leaves: each asks that the words it touches are there.
//
// Kept as slices, with their lengths in clauses: hosts lend the table of the processes so, and an array for
// either table would ask more of callers. Kept apart: `processes` and `top`. Half of the passes write the
// table, so a struct of both would be made anew for each frontier that they read.

#![tactic(auto)]

ghost use Rattle.std.specs.Prelude.{◌≡◌, ◌+◌, ◌*◌, ◌<◌, ◌≤◌, length, get_or};
ghost use Rattle.types.specs.Value.{ticks_of, duration_of};
ghost use Rattle.records.specs.Records.{event_at, events_of};
ghost use Rattle.frontiers.specs.Tables.{FirstTicks, FirstTickSet, capped};
ghost use Rattle.frontiers.specs.Rises.{FindsBound, RaisedEdge, CanRaise, RaisesBounds};
ghost use Rattle.frontiers.specs.InputFrontiers.{RaisedHorizon, RaisedHorizons, ReadsFrontiers, Eligible};

use types::{SimDuration, SimTime};

// The first pending tick of n processes, or `none`. From the end: the first is what stays.
pub fn first_ticks(pending: &[u64], count: usize, n: usize, none: SimTime, first: &mut [u64])
    requires { (8 * count ≤ length pending.now) × (n ≤ 64) × (length first.old ≡ 128) }
    ensures { FirstTicks n (events_of count pending.now) (ticks_of none) first.new }
{
    words::fill(first, n, none);
    for i in (0..count).rev() {
        set_first_tick(pending, i, first);
    }
}

// The tick of event i is its destination's.
fn set_first_tick(pending: &[u64], i: usize, first: &mut [u64])
    requires { (8 * i + 8 ≤ length pending.now) × (length first.old ≡ 128) }
    ensures { FirstTickSet (event_at pending.now i) first.old first.new }
{
    let to = pending[8 * i];
    if to < 64 {
        let at = (2 * to) as usize;
        let t = words::tick_in(pending, 8 * i + 1);
        words::put_tick(first, at, t);
    }
}

// What a bound rises to: the lesser of H and input frontier + L, or H on overflow.
pub fn advanced_bound(frontier: SimTime, lookahead: SimDuration, top: SimTime) -> SimTime
    ensures { ticks_of result ≡ capped (ticks_of top) (duration_of lookahead) (ticks_of frontier) }
{
    match frontier.checked_add(lookahead) {
        Some(t) => top.min(t),
        None => top,
    }
}

// The input frontiers of n processes, by the record as it is: the table of first ticks becomes theirs.
fn input_frontiers(processes: &[u64], first: &mut [u64], n: usize, top: SimTime)
    requires { (n ≤ 64) × (length processes.now ≡ 256) × (length first.old ≡ 128) }
    ensures { ReadsFrontiers n (ticks_of top) processes.now first.old first.new }
{
    for p in (0..n).rev() {
        let front = inbound::frontier(processes, p, top);
        let tick = words::tick_in(first, 2 * p);
        words::put_tick(first, 2 * p, front.min(tick));
    }
}

// What the bounds of the edges with one source and one lookahead rise to.
#[derive(Clone, Copy)]
struct SourceBound {
    source: u64,
    lookahead: SimDuration,
    bound: SimTime,
}

// What the bound of edge i rises to, by the input frontier of its source and its own lookahead. Build
// leaves the edges of a source side by side, so what was found for the last edge often serves. In this
// order the three tests take the fewest instructions.
fn source_bound(
    edges: &[u64],
    i: usize,
    frontiers: &[u64],
    top: SimTime,
    last: SourceBound,
) -> SourceBound
    requires { (6 * i + 6 ≤ length edges.now) × (128 ≤ length frontiers.now) × (get_or edges.now (6 * i) 0 < 64) }
    ensures { FindsBound i (ticks_of top) frontiers.now edges.now last result }
{
    if edges[6 * i + 2] == last.lookahead.hi
        && edges[6 * i + 3] == last.lookahead.lo
        && edges[6 * i] == last.source
    {
        return last;
    }
    let source = edges[6 * i];
    let at = (2 * source) as usize;
    let frontier = words::tick_in(frontiers, at);
    let lookahead = words::duration_in(edges, 6 * i + 2);
    SourceBound {
        source,
        lookahead,
        bound: advanced_bound(frontier, lookahead, top),
    }
}

// The bound of edge i rises to t, or stays; 1 if it rose.
fn raise_bound(edges: &mut [u64], i: usize, t: SimTime) -> usize
    requires { 6 * i + 6 ≤ length edges.old }
    ensures { RaisedEdge i (ticks_of t) edges.old edges.new result }
{
    usize::from(words::raise_tick(edges, 6 * i + 4, t))
}

// The bounds of an advance, each written when it is found, edge by edge (request A.3); how many rose.
// Frontiers of before the advance decide: all are read, in the place of the first ticks, before the
// record that they are read from is made anew, of the bounds as they are written.
pub fn raise_bounds(
    edges: &mut [u64],
    count: usize,
    first: &mut [u64],
    n: usize,
    processes: &mut [u64],
    top: SimTime,
) -> usize
    requires { CanRaise count n edges.old first.old processes.old }
    ensures { RaisesBounds count n (ticks_of top) first.old edges.old processes.old edges.new processes.new result }
{
    input_frontiers(processes, first, n, top);
    inbound::reset(processes, n);
    let mut raised: usize = 0;
    // Nothing is found yet: 64 is no process. Kept in place of an Option, by which it took almost half as
    // long again over 512 edges.
    let mut last = SourceBound {
        source: 64,
        lookahead: SimDuration::ZERO,
        bound: top,
    };
    for i in (0..count).rev() {
        last = source_bound(edges, i, first, top, last);
        raised += raise_bound(edges, i, last.bound);
        inbound::lower(edges, i, processes);
    }
    raised
}

// What a pass over local horizons finds: whether one rose, the least first pending tick, and the least
// local horizon after it.
#[derive(Clone, Copy)]
pub struct Raised {
    pub tick: SimTime,
    pub horizon: SimTime,
    pub rose: bool,
}

// The local horizons of n processes rise to the lesser of frontier and first pending tick. The least
// are sought from H down.
pub fn raise_horizons(processes: &mut [u64], n: usize, first: &[u64], top: SimTime) -> Raised
    requires { (n ≤ 64) × (length processes.old ≡ 256) × (length first.now ≡ 128) }
    ensures { RaisedHorizons n first.now (ticks_of top) processes.old processes.new result }
{
    let mut r = Raised {
        tick: top,
        horizon: top,
        rose: false,
    };
    for i in (0..n).rev() {
        r = raise_horizon(processes, i, first, top, r);
    }
    r
}

// The local horizon of process i rises, or stays; what was found before goes on.
fn raise_horizon(
    processes: &mut [u64],
    i: usize,
    first: &[u64],
    top: SimTime,
    found: Raised,
) -> Raised
    requires { (i < 64) × (length processes.old ≡ 256) × (length first.now ≡ 128) }
    ensures { RaisedHorizon i first.now (ticks_of top) found processes.old processes.new result }
{
    let front = inbound::frontier(processes, i, top);
    let tick = words::tick_in(first, 2 * i);
    let rose = words::raise_tick(processes, 2 * i, front.min(tick));
    let horizon = words::tick_in(processes, 2 * i);
    Raised {
        tick: found.tick.min(tick),
        horizon: found.horizon.min(horizon),
        rose: rose || found.rose,
    }
}

// Whether an event is eligible: the first pending tick of one of n processes is below its frontier.
// Kept as a `for`: by `any` it took a seventh more time over 64 processes.
pub fn has_eligible_event<'a>(
    processes: &'a [u64],
    first: &'a [u64],
    n: usize,
    top: SimTime,
) -> bool
    requires { (n ≤ 64) × (length processes.now ≡ 256) × (length first.now ≡ 128) }
    ensures { Eligible n (ticks_of top) processes.now first.now result }
{
    for p in 0..n {
        let front = inbound::frontier(processes, p, top);
        let tick = words::tick_in(first, 2 * p);
        if tick.lt(front) {
            return true;
        }
    }
    false
}
