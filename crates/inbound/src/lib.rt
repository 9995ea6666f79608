// The record of request A.2: each process's least inbound bound, and the largest tick for a process
// without inbound edges. A frontier is read from it.
//
// It stands in the table of the processes (`horizons_of`, `inbounds_of` in specs/Words.antt of words),
// from place 64 on. These are leaves: each asks that the words it touches are there. That the table has 256
// words stays a clause beside a slice: a type of 256 words would ask more of the calls on lent arrays.

#![tactic(auto)]

ghost use Rattle.std.specs.Prelude.{◌≡◌, [], ◌+◌, ◌*◌, ◌≤◌, ◌<◌, length, get_or};
ghost use Rattle.types.specs.Value.{ticks_of};
ghost use Rattle.records.specs.Records.{edge_at, edges_of};
ghost use Rattle.inbound.specs.Inbound.{frontier_in, LowersInbound, RecordsInbound, Destinations};

use types::SimTime;

// safe(p): the lesser of the least inbound bound and H.
pub fn frontier(processes: &[u64], p: usize, top: SimTime) -> SimTime
    requires { (p < 64) × (length processes.now ≡ 256) }
    ensures { ticks_of result ≡ frontier_in processes.now (ticks_of top) p }
{
    let bound = words::tick_in(processes, 2 * (64 + p));
    bound.min(top)
}

// No edge is on record: the largest tick for each of n processes.
pub fn reset(processes: &mut [u64], n: usize)
    requires { (n ≤ 64) × (length processes.old ≡ 256) }
    ensures { RecordsInbound n [] processes.old processes.new }
{
    let largest = SimTime::largest();
    words::fill(&mut processes[128..], n, largest);
}

// Edge i goes on record: the tick of its destination falls to its bound, if that is lower.
pub fn lower(edges: &[u64], i: usize, processes: &mut [u64])
    requires { (6 * i + 6 ≤ length edges.now) × (length processes.old ≡ 256) × (get_or edges.now (6 * i + 1) 0 < 64) }
    ensures { LowersInbound (edge_at edges.now i) processes.old processes.new }
{
    let to = edges[6 * i + 1] as usize;
    let bound = words::tick_in(edges, 6 * i + 4);
    words::lower_tick(processes, 2 * (64 + to), bound);
}

// The record of n processes, made of all edges.
pub fn record_inbound(edges: &[u64], count: usize, n: usize, processes: &mut [u64])
    requires { (6 * count ≤ length edges.now) × (n ≤ 64) × (length processes.old ≡ 256) × Destinations 64 count edges.now }
    ensures { RecordsInbound n (edges_of count edges.now) processes.old processes.new }
{
    reset(processes, n);
    for i in (0..count).rev() {
        lower(edges, i, processes);
    }
}
