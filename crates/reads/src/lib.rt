// The four reads: GVT, counters, how many are pending, earliest pending tick. They check 11 and
// nothing else, and give back no state and no counters, since these stay as given.

#![tactic(auto)]

ghost use Rattle.rules.specs.Reads.{read_gvt, read_counters, read_pending, read_earliest};
ghost use Rattle.reads.specs.Reads.{Reads};

use state::{Counters, Refusal, Runtime};
use types::SimTime;

// What a read answers. Counters come with `used`, which is one of them but stands in the state.
#[derive(Clone, Copy)]
pub enum Reading {
    Gvt(SimTime),
    Counted(Counters, u64),
    Pending(u64),
    Earliest(SimTime),
}

pub fn read_gvt(state: Runtime, counters: Counters) -> Result<Reading, Refusal>
    ensures { Reads read_gvt state counters result }
{
    foreign::check(&state)?;
    Ok(Reading::Gvt(state.head.gvt))
}

pub fn read_counters(state: Runtime, counters: Counters) -> Result<Reading, Refusal>
    ensures { Reads read_counters state counters result }
{
    foreign::check(&state)?;
    Ok(Reading::Counted(counters, state.head.used))
}

pub fn read_pending(state: Runtime, counters: Counters) -> Result<Reading, Refusal>
    ensures { Reads read_pending state counters result }
{
    foreign::check(&state)?;
    Ok(Reading::Pending(state.head.pending as u64))
}

// "the largest tick if none is pending"
pub fn read_earliest(state: Runtime, counters: Counters) -> Result<Reading, Refusal>
    ensures { Reads read_earliest state counters result }
{
    foreign::check(&state)?;
    let largest = SimTime::largest();
    let earliest = records::least_tick(&state.pending, state.head.pending, largest);
    Ok(Reading::Earliest(earliest))
}
