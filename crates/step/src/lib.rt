// The core of a step: the batch; or, where nothing is eligible, 24 or an advance.
//
// Kept apart: the header and the counters, and the four arrays. Hosts lend each by itself, add initial and
// begin take the header alone, and a step hands some arrays on to be read and others to be written.

#![tactic(auto)]

ghost use Rattle.std.specs.Prelude.{◌≡◌, ◌*◌, ◌≤◌, length};
ghost use Rattle.rules.specs.Step.{count_advance};
ghost use Rattle.state.specs.View.{counters_of};
ghost use Rattle.step_advance.specs.Advances.{CanAdvance};
ghost use Rattle.step.specs.WithoutBatch.{closed_with, spent_of, Rises, finished_of, Answered, AdvancesOrRefuses};
ghost use Rattle.state.specs.ValidArrays.{ValidArrays};
ghost use Rattle.step.specs.Steps.{StepRefusal, CanTakeBatch, HandsOut, batch_answered, Steps};

use state::{Answer, CoreResult, Counters, Header, Refusal};
use step_advance::{Advanced, exclusive_horizon};

// "If anything rose, rounds + 1"; "each bound raised is one null message".
fn count_advance(counters: Counters, raised: usize) -> Counters
    ensures { counters_of result ≡ count_advance (counters_of counters) raised }
{
    Counters {
        rounds: state::saturating_add(counters.rounds, 1),
        null_messages: state::saturating_add(counters.null_messages, raised as u64),
        ..counters
    }
}

// The run is closed, with this answer.
fn close(head: Header, counters: Counters, answer: Result<Answer, Refusal>) -> CoreResult
    ensures { result ≡ closed_with answer head counters }
{
    CoreResult {
        answer,
        head: Header {
            running: false,
            ..head
        },
        counters,
    }
}

// Row 24: "run closed, otherwise as reached".
fn budget_exceeded(head: Header, counters: Counters) -> CoreResult
    ensures { result ≡ spent_of head counters }
{
    close(
        head,
        counters,
        Err(Refusal::EventBudgetExceeded(head.budget)),
    )
}

// "If something rose, answer Advanced."
fn advanced(head: Header, counters: Counters, raised: usize) -> CoreResult
    ensures { Rises head counters raised result }
{
    CoreResult {
        answer: Ok(Answer::Advanced(head.gvt)),
        head,
        counters: count_advance(counters, raised),
    }
}

// "If nothing rose, .. answer Finished and close the run": the branch of the rules where the run is
// not complete is never reached (rules/proofs/LastBranch).
fn finished(head: Header, counters: Counters) -> CoreResult
    ensures { result ≡ finished_of head counters }
{
    close(head, counters, Ok(Answer::Finished(head.gvt)))
}

// What is answered after an advance.
fn answered(done: Advanced, counters: Counters) -> CoreResult
    ensures { Answered done counters result }
{
    if done.rose {
        return advanced(done.head, counters, done.raised);
    }
    finished(done.head, counters)
}

// Nothing was taken: 24, or an advance.
pub fn advance_or_refuse(
    head: Header,
    counters: Counters,
    edges: &mut [u64],
    pending: &[u64],
    processes: &mut [u64],
) -> CoreResult
    requires { CanAdvance head edges.old processes.old × (8 * head.pending ≤ length pending.now) }
    ensures { AdvancesOrRefuses head counters edges.old pending.now processes.old result edges.new processes.new }
{
    let top = exclusive_horizon(head.horizon);
    let mut first = [0u64; 128];
    frontiers::first_ticks(pending, head.pending, head.n, top, &mut first);
    if step_advance::budget_spent(head, processes, &first, top) {
        return budget_exceeded(head, counters);
    }
    let done = step_advance::advance(head, edges, processes, &mut first, top);
    answered(done, counters)
}

// The first eligible event of each process is in hand, while used + taken < budget; freed places
// are zero.
fn hand_out(head: Header, pending: &mut [u64], processes: &[u64], batch: &mut [u64]) -> Header
    requires { CanTakeBatch head pending.old processes.now batch.old }
    ensures { HandsOut head pending.old processes.now batch.old result pending.new batch.new }
{
    let room = head.budget.saturating_sub(head.used);
    let top = exclusive_horizon(head.horizon);
    let scan = step_batch::take_batch(pending, head.pending, processes, top, room, batch);
    words::clear(pending, 8 * scan.kept, 8 * head.pending);
    Header {
        pending: scan.kept,
        batch: scan.taken,
        ..head
    }
}

// Rows 12 and 23.
fn refusal(head: Header) -> Result<(), Refusal>
    ensures { StepRefusal head result }
{
    if head.poisoned {
        return Err(Refusal::Poisoned);
    }
    if !head.running || 0 < head.batch {
        return Err(Refusal::NothingToStep);
    }
    Ok(())
}

// The batch is answered.
fn batch_answer(head: Header, counters: Counters) -> CoreResult
    ensures { result ≡ batch_answered head counters }
{
    CoreResult {
        answer: Ok(Answer::Batch(head.gvt)),
        head,
        counters,
    }
}

// Rows 12 and 23; then the batch, or what is done without one.
pub fn step(
    head: Header,
    counters: Counters,
    edges: &mut [u64],
    pending: &mut [u64],
    processes: &mut [u64],
    batch: &mut [u64],
) -> CoreResult
    requires { ValidArrays head edges.old pending.old processes.old batch.old }
    ensures { Steps head counters edges.old pending.old processes.old batch.old result edges.new pending.new processes.new batch.new }
{
    if let Err(refusal) = refusal(head) {
        return CoreResult {
            answer: Err(refusal),
            head,
            counters,
        };
    }
    let h = hand_out(head, pending, processes, batch);
    if 0 < h.batch {
        return batch_answer(h, counters);
    }
    advance_or_refuse(h, counters, edges, pending, processes)
}
