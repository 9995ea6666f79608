// The core of begin: what it does with a state that 11 let pass.

#![tactic(auto)]

ghost use Rattle.std.specs.Prelude.{◌≡◌, leb};
ghost use Rattle.types.specs.Value.{ticks_of};
ghost use Rattle.state.specs.View.{stored_of};
ghost use Rattle.state.specs.Headers.{running_header};
ghost use Rattle.rules.specs.State.{max_tick};
ghost use Rattle.rules.specs.Begin.{previous};
ghost use Rattle.begin_run.specs.Begins.{Begins, BeginRefusal};

use state::{Answer, Header, HeaderResult, Refusal};
use types::SimTime;

// The last accepted horizon; 0 stands for none, since nothing is below it. Kept in place of an Option: the
// rules' own definition (`previous`) has it so.
fn last_horizon(head: Header) -> SimTime
    ensures { ticks_of result ≡ previous (stored_of head.stored (ticks_of head.horizon) head.budget) }
{
    if head.stored {
        return head.horizon;
    }
    SimTime::zero()
}

// The tick that nothing is above.
fn is_largest(tick: SimTime) -> bool
    ensures { result ≡ leb max_tick (ticks_of tick) }
{
    !tick.lt(SimTime::largest())
}

// Rows 12, 20, 21 and 22.
fn refusal(head: Header, horizon: SimTime) -> Result<(), Refusal>
    ensures { BeginRefusal head horizon result }
{
    if head.poisoned {
        return Err(Refusal::Poisoned);
    }
    if head.running {
        return Err(Refusal::RunOpen);
    }
    let last = last_horizon(head);
    if horizon.lt(last) {
        return Err(Refusal::HorizonRegression(last, horizon));
    }
    if is_largest(horizon) {
        return Err(Refusal::HorizonOverflow(horizon));
    }
    Ok(())
}

// "Begin stores horizon and budget, closes initial events, sets this run's used count to 0 and opens
// the run."
fn open_run(head: Header, horizon: SimTime, budget: u64) -> Header
    ensures { result ≡ running_header head horizon budget }
{
    Header {
        stored: true,
        horizon,
        budget,
        used: 0,
        initial: false,
        running: true,
        ..head
    }
}

// The rows; then the run.
pub fn begin(head: Header, horizon: SimTime, budget: u64) -> HeaderResult
    ensures { Begins head horizon budget result }
{
    match refusal(head, horizon) {
        Ok(()) => HeaderResult {
            answer: Ok(Answer::Accepted),
            head: open_run(head, horizon, budget),
        },
        Err(refusal) => HeaderResult {
            answer: Err(refusal),
            head,
        },
    }
}
