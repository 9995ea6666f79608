// What follows once every emission of a reply is checked, in whatever form it was lent: 27 of the
// process that failed, then 19 and 18; and, once the round's emissions are queued, its end.

#![tactic(auto)]

ghost use Rattle.std.specs.Prelude.{◌≡◌, ◌+◌, ◌*◌, ◌≤◌, length};
ghost use Rattle.rules.specs.State.{saturating_add};
ghost use Rattle.state.specs.Headers.{committed_header};
ghost use Rattle.hand_back_commit.specs.Commits.{refusal_of, FinalCheck, CanEnd, Ends};

use hand_back_check::ReplyCheck;
use state::{CoreResult, Counters, Header, Refusal};
use types::LpId;

// 27 of a process that failed, then 19 and 18.
fn refusal(failed: Option<LpId>, next: u64, pending: usize, emitted: usize) -> Result<(), Refusal>
    ensures { result ≡ refusal_of failed next pending emitted }
{
    if let Some(p) = failed {
        return Err(Refusal::HandlerFailed(p));
    }
    if state::sequence_exhausted(next, emitted as u64) {
        return Err(Refusal::EventSequenceOverflow);
    }
    if state::is_queue_full(pending, emitted) {
        return Err(Refusal::QueueFull);
    }
    Ok(())
}

// What 27 to 33 say of a reply of so many emissions, and then 19 and 18.
pub fn final_check(a: ReplyCheck, next: u64, pending: usize, emitted: usize) -> Result<(), Refusal>
    ensures { FinalCheck a next pending emitted result }
{
    a.outcome?;
    refusal(a.failed, next, pending, emitted)
}

// The batch is handled, and used grows by it; so many emissions more are pending. Freed places are
// zero.
fn handle(head: Header, batch: &mut [u64], emitted: usize) -> Header
    requires { (8 * head.batch ≤ length batch.old) × (head.pending + emitted ≤ 512) × (head.next + emitted ≤ 18446744073709551615) }
    ensures { result ≡ committed_header head emitted (saturating_add head.used head.batch) }
{
    words::clear(batch, 0, 8 * head.batch);
    Header {
        pending: head.pending + emitted,
        next: head.next + emitted as u64,
        used: state::saturating_add(head.used, head.batch as u64),
        batch: 0,
        ..head
    }
}

// The round, whose emissions are queued, is counted and ended.
pub fn commit_round(
    head: Header,
    counters: Counters,
    pending: &[u64],
    processes: &mut [u64],
    batch: &mut [u64],
    remote: u64,
    emitted: usize,
) -> CoreResult
    requires { CanEnd head pending.now processes.old batch.old emitted }
    ensures { Ends head counters pending.now processes.old batch.old remote emitted result processes.new batch.new }
{
    let c = hand_back_end::count_round(counters, head.batch as u64, emitted as u64, remote);
    let h = handle(head, batch, emitted);
    hand_back_end::end_round(h, c, pending, processes)
}
