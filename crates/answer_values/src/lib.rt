// Document 01's number and values of what the calls answer, for those who print them.

#![tactic(auto)]

ghost use Rattle.std.specs.Prelude.{◌≡◌, []};
ghost use Rattle.build.specs.Numbers as of_build;
ghost use Rattle.reads.specs.Numbers as of_read;
ghost use Rattle.state.specs.Numbers.{number_for, number_of, values_for, values_of};
ghost use Rattle.answer_values.specs.Values.{list_of};

use build::BuildRefusal;
use reads::Reading;
use state::{Answer, Counters, Refusal};
use types::{LpId, SimDuration, SimTime};

// The values that come with an answer, in the order of document 01's column "Returned".
#[derive(Clone, Copy)]
pub enum Values {
    Nothing,
    Number(u64),
    Numbers(u64, u64),
    Id(LpId),
    Ids(LpId, LpId),
    Tick(SimTime),
    Ticks(SimTime, SimTime),
    IdTicks(LpId, SimTime, SimTime),
    IdThreeTicks(LpId, SimTime, SimTime, SimTime),
    IdTickDuration(LpId, SimTime, SimDuration),
    Counted(Counters, u64),
}

// The number of each kind of answer. Kept as three functions: `build`, `state` and `reads` define each
// apart, and their contracts say which.
pub fn build_number(answer: Result<(), BuildRefusal>) -> u64
    ensures { result ≡ of_build.number_of answer }
{
    let Err(refusal) = answer else {
        return 0;
    };
    match refusal {
        BuildRefusal::InvalidPartitionCount(_) => 1,
        BuildRefusal::InvalidLookahead => 2,
        BuildRefusal::UnorderedProcesses => 3,
        BuildRefusal::ProcessSetMismatch(_, _) => 4,
        BuildRefusal::MalformedTopology => 5,
        BuildRefusal::MissingTopologyEntry(_) => 6,
        BuildRefusal::UnknownTopologySource(_) => 7,
        BuildRefusal::UnknownTopologyDestination(_, _) => 8,
        BuildRefusal::SelfLoop(_) => 9,
        BuildRefusal::DuplicateNeighbor(_, _) => 10,
        BuildRefusal::InvalidEdgeLookahead => 40,
    }
}

pub fn build_values(answer: Result<(), BuildRefusal>) -> Values
    ensures { list_of result ≡ of_build.values_of answer }
{
    let Err(refusal) = answer else {
        return Values::Nothing;
    };
    match refusal {
        BuildRefusal::InvalidPartitionCount(n) => Values::Number(n),
        BuildRefusal::InvalidLookahead => Values::Nothing,
        BuildRefusal::UnorderedProcesses => Values::Nothing,
        BuildRefusal::ProcessSetMismatch(missing, unexpected) => Values::Numbers(
            missing, unexpected,
        ),
        BuildRefusal::MalformedTopology => Values::Nothing,
        BuildRefusal::MissingTopologyEntry(p) => Values::Id(p),
        BuildRefusal::UnknownTopologySource(p) => Values::Id(p),
        BuildRefusal::UnknownTopologyDestination(p, d) => Values::Ids(p, d),
        BuildRefusal::SelfLoop(p) => Values::Id(p),
        BuildRefusal::DuplicateNeighbor(p, d) => Values::Ids(p, d),
        BuildRefusal::InvalidEdgeLookahead => Values::Nothing,
    }
}

fn number_for(refusal: Refusal) -> u64
    ensures { result ≡ number_for refusal }
{
    match refusal {
        Refusal::ForeignState => 11,
        Refusal::Poisoned => 12,
        Refusal::InitialEventsAlreadyClosed => 13,
        Refusal::UnknownInitialSource(_) => 14,
        Refusal::UnknownInitialDestination(_) => 15,
        Refusal::InitialRouteMissing(_, _) => 16,
        Refusal::PayloadTooLong(_) => 17,
        Refusal::QueueFull => 18,
        Refusal::EventSequenceOverflow => 19,
        Refusal::RunOpen => 20,
        Refusal::HorizonRegression(_, _) => 21,
        Refusal::HorizonOverflow(_) => 22,
        Refusal::NothingToStep => 23,
        Refusal::EventBudgetExceeded(_) => 24,
        Refusal::NoBatch => 25,
        Refusal::MalformedReply => 26,
        Refusal::HandlerFailed(_) => 27,
        Refusal::OutboundSourceMismatch(_, _) => 28,
        Refusal::UnknownOutboundDestination(_) => 29,
        Refusal::OutboundRouteMissing(_, _) => 30,
        Refusal::LookaheadOverflow(_, _, _) => 31,
        Refusal::OutboundLookaheadViolation(_, _, _, _) => 32,
        Refusal::Straggler(_, _, _) => 33,
    }
}

pub fn number_of(answer: Result<Answer, Refusal>) -> u64
    ensures { result ≡ number_of answer }
{
    match answer {
        Ok(_) => 0,
        Err(refusal) => number_for(refusal),
    }
}

fn values_for(refusal: Refusal) -> Values
    ensures { list_of result ≡ values_for refusal }
{
    match refusal {
        Refusal::ForeignState => Values::Nothing,
        Refusal::Poisoned => Values::Nothing,
        Refusal::InitialEventsAlreadyClosed => Values::Nothing,
        Refusal::UnknownInitialSource(p) => Values::Id(p),
        Refusal::UnknownInitialDestination(p) => Values::Id(p),
        Refusal::InitialRouteMissing(a, b) => Values::Ids(a, b),
        Refusal::PayloadTooLong(k) => Values::Number(k),
        Refusal::QueueFull => Values::Nothing,
        Refusal::EventSequenceOverflow => Values::Nothing,
        Refusal::RunOpen => Values::Nothing,
        Refusal::HorizonRegression(g, h) => Values::Ticks(g, h),
        Refusal::HorizonOverflow(h) => Values::Tick(h),
        Refusal::NothingToStep => Values::Nothing,
        Refusal::EventBudgetExceeded(k) => Values::Number(k),
        Refusal::NoBatch => Values::Nothing,
        Refusal::MalformedReply => Values::Nothing,
        Refusal::HandlerFailed(p) => Values::Id(p),
        Refusal::OutboundSourceMismatch(a, b) => Values::Ids(a, b),
        Refusal::UnknownOutboundDestination(p) => Values::Id(p),
        Refusal::OutboundRouteMissing(a, b) => Values::Ids(a, b),
        Refusal::LookaheadOverflow(p, t, l) => Values::IdTickDuration(p, t, l),
        Refusal::OutboundLookaheadViolation(p, t, u, m) => Values::IdThreeTicks(p, t, u, m),
        Refusal::Straggler(p, u, h) => Values::IdTicks(p, u, h),
    }
}

// Of a batch its GVT alone: its events stand in the state.
#[tactic(auto, unfolding(rules::specs::Answers::event_values))]
pub fn values_of(answer: Result<Answer, Refusal>) -> Values
    ensures { list_of result ≡ values_of [] answer }
{
    match answer {
        Ok(Answer::Accepted) => Values::Nothing,
        Ok(Answer::Batch(g)) => Values::Tick(g),
        Ok(Answer::Advanced(g)) => Values::Tick(g),
        Ok(Answer::Finished(g)) => Values::Tick(g),
        Ok(Answer::Committed(g)) => Values::Tick(g),
        Err(refusal) => values_for(refusal),
    }
}

pub fn read_number(answer: Result<Reading, Refusal>) -> u64
    ensures { result ≡ of_read.number_of answer }
{
    let Err(refusal) = answer else {
        return 0;
    };
    number_for(refusal)
}

pub fn read_values(answer: Result<Reading, Refusal>) -> Values
    ensures { list_of result ≡ of_read.values_of answer }
{
    match answer {
        Ok(Reading::Gvt(t)) => Values::Tick(t),
        Ok(Reading::Counted(counters, used)) => Values::Counted(counters, used),
        Ok(Reading::Pending(count)) => Values::Number(count),
        Ok(Reading::Earliest(t)) => Values::Tick(t),
        Err(refusal) => values_for(refusal),
    }
}
