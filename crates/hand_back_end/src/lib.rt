// What follows once a reply is checked: the round counted and ended, or lost.

#![tactic(auto)]

ghost use Rattle.std.specs.Prelude.{◌≡◌, suc, ◌*◌, ◌≤◌, length};
ghost use Rattle.types.specs.Value.{ticks_of};
ghost use Rattle.state.specs.Headers.{poisoned_header};
ghost use Rattle.step_advance.specs.Refreshes.{CanRefresh};
ghost use Rattle.hand_back_end.specs.EndsRound.{CountsRound, Poisons, RefreshesHeader, CanEndRound, EndsRound};

use state::{Answer, CoreResult, Counters, Header, Refusal};
use step_advance::exclusive_horizon;
use types::SimTime;

// "Handled, emitted and remote grow by their counts, .. rounds by 1; the worker count is the largest
// batch so far."
pub fn count_round(counters: Counters, handled: u64, emitted: u64, remote: u64) -> Counters
    ensures { CountsRound counters handled emitted remote result }
{
    Counters {
        processed_events: state::saturating_add(counters.processed_events, handled),
        emitted_events: state::saturating_add(counters.emitted_events, emitted),
        remote_events: state::saturating_add(counters.remote_events, remote),
        rounds: state::saturating_add(counters.rounds, 1),
        worker_count: counters.worker_count.max(handled),
        ..counters
    }
}

// "the batch is lost, poisoned is set, all else stands".
fn poisoned_header(head: Header) -> Header
    ensures { result ≡ poisoned_header head }
{
    Header {
        batch: 0,
        poisoned: true,
        ..head
    }
}

// "'Poisoned' in the last column" of a refusal, or of any other answer. Freed places are zero.
pub fn poison(
    answer: Result<Answer, Refusal>,
    head: Header,
    counters: Counters,
    batch: &mut [u64],
) -> CoreResult
    requires { 8 * head.batch ≤ length batch.old }
    ensures { Poisons answer head counters result }
{
    words::clear(batch, 0, 8 * head.batch);
    CoreResult {
        answer: answer,
        head: poisoned_header(head),
        counters: counters,
    }
}

// "refresh": local horizons rise to what the record and the first ticks say, and GVT.
fn refreshed(head: Header, processes: &mut [u64], first: &[u64], top: SimTime) -> Header
    requires { CanRefresh head.n processes.old first.now × (ticks_of top ≡ suc (ticks_of head.horizon)) }
    ensures { RefreshesHeader head processes.old first.now result processes.new }
{
    let result = step_advance::refresh(head.n, head.gvt, processes, first, top);
    Header {
        gvt: result.gvt,
        ..head
    }
}

// The round is counted and the batch gone: "Then 24 if used >= budget and an event is eligible,
// without refresh; else refresh and answer Committed."
pub fn end_round(
    head: Header,
    counters: Counters,
    pending: &[u64],
    processes: &mut [u64],
) -> CoreResult
    requires { CanEndRound head pending.now processes.old }
    ensures { EndsRound head counters pending.now processes.old result processes.new }
{
    let horizon = head.horizon;
    let top = exclusive_horizon(horizon);
    let mut first = [0u64; 128];
    frontiers::first_ticks(pending, head.pending, head.n, top, &mut first);
    if step_advance::budget_spent(head, processes, &first, top) {
        return CoreResult {
            answer: Err(Refusal::EventBudgetExceeded(head.budget)),
            head: Header {
                running: false,
                ..head
            },
            counters: counters,
        };
    }
    let h = refreshed(head, processes, &first, top);
    CoreResult {
        answer: Ok(Answer::Committed(h.gvt)),
        head: h,
        counters: counters,
    }
}
