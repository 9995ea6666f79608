// The batch: the first eligible event of each process, in one pass over the pending records.
//
// proofs/ScanRule.antt has the law that the pass takes what the rule takes; proofs/Taken.antt says it
// of the words.

#![tactic(auto)]

ghost use Rattle.std.specs.Prelude.{◌≡◌, ◌&&◌, ◌+◌, ◌*◌, ◌<◌, ◌≤◌, ltb, length};
ghost use Rattle.types.specs.Value.{ticks_of};
ghost use Rattle.records.specs.Records.{record_in, put_record, Owners};
ghost use Rattle.inbound.specs.Inbound.{frontier_in};
ghost use Rattle.step_batch.specs.Scan.{Scannable, EventScanned, TakesBatch};

use types::SimTime;

// Where the pass is: how many are kept and taken, how many more may be taken, and the first process
// not yet seen.
#[derive(Clone, Copy)]
pub struct BatchScan {
    pub kept: usize,
    pub taken: usize,
    pub room: u64,
    pub seen: u64,
}

// The first eligible event of each process goes to the batch, at most `room`, and the gaps close.
// `top` is H; with it, a frontier is read from the record in `processes`. Kept as two parameters, as in
// frontiers: what writes the table has both apart.
pub fn take_batch(
    pending: &mut [u64],
    count: usize,
    processes: &[u64],
    top: SimTime,
    room: u64,
    batch: &mut [u64],
) -> BatchScan
    requires { (count ≤ 512) × (length pending.old ≡ 4096) × (length processes.now ≡ 256) × (length batch.old ≡ 512) × Owners count pending.old }
    ensures { TakesBatch count (frontier_in processes.now (ticks_of top)) room pending.old batch.old pending.new batch.new result }
{
    let mut s = BatchScan {
        kept: 0,
        taken: 0,
        room,
        seen: 0,
    };
    for i in 0..count {
        s = scan_event(pending, i, processes, top, batch, s);
    }
    s
}

// Event i goes to the batch, or behind those kept. Where its process is seen already, no more of it
// is read.
fn scan_event(
    pending: &mut [u64],
    i: usize,
    processes: &[u64],
    top: SimTime,
    batch: &mut [u64],
    s: BatchScan,
) -> BatchScan
    requires { Scannable i pending.old processes.now batch.old s }
    ensures { EventScanned i (frontier_in processes.now (ticks_of top)) pending.old batch.old pending.new batch.new s result }
{
    let to = pending[8 * i];
    if to < s.seen {
        keep_pending(pending, i, s.kept);
        return BatchScan {
            kept: s.kept + 1,
            ..s
        };
    }
    let t = words::tick_in(pending, 8 * i + 1);
    if is_taken(processes, to, t, top, s.room) {
        let e = records::record_in(pending, 8 * i);
        records::put_record(batch, 8 * s.taken, e);
        return BatchScan {
            taken: s.taken + 1,
            room: s.room - 1,
            seen: to + 1,
            ..s
        };
    }
    keep_pending(pending, i, s.kept);
    BatchScan {
        kept: s.kept + 1,
        seen: to + 1,
        ..s
    }
}

// There is room, and the tick of the process's first event is below its frontier.
fn is_taken(processes: &[u64], to: u64, t: SimTime, top: SimTime, room: u64) -> bool
    requires { (to < 64) × (length processes.now ≡ 256) }
    ensures { result ≡ (ltb 0 room && ltb (ticks_of t) (frontier_in processes.now (ticks_of top) to)) }
{
    if room == 0 {
        return false;
    }
    let front = inbound::frontier(processes, to as usize, top);
    t.lt(front)
}

// Event i goes behind the first `kept`; until one is taken it stands there.
fn keep_pending(pending: &mut [u64], i: usize, kept: usize)
    requires { (kept ≤ i) × (8 * i + 8 ≤ length pending.old) }
    ensures { pending.new ≡ put_record pending.old (8 * kept) (record_in pending.old (8 * i)) }
{
    if kept < i {
        let e = records::record_in(pending, 8 * i);
        records::put_record(pending, 8 * kept, e);
    }
}
