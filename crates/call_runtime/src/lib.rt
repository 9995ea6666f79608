// A call from words (docs/CALLS.md) through a face: for programs that read calls. `call_list` carries
// out the same words on lent arrays.

#![tactic(auto)]

ghost use Rattle.std.specs.Prelude.{◌/◌, ◌<◌, length, get_or};
ghost use Rattle.types.specs.Value.{ticks_of};
ghost use Rattle.rules.specs.Calls.{AddInitial, Begin, Step, HandBack};
ghost use Rattle.reply_words.specs.Emissions.{emissions_of};
ghost use Rattle.state.specs.View.{message_of};
ghost use Rattle.call_words.specs.Decode.{decode, size, call_of};
ghost use Rattle.runtime.specs.Executes.{Executes};

use call_words::{BEGIN, STEP};
use runtime::CallResult;
use state::{Counters, Message, Runtime};
use types::SimTime;

// The calls on a runtime, with plain parameters. A reply is words here, eight to an emission.
pub trait Calls {
    fn add_initial(state: Runtime, counters: Counters, m: Message) -> CallResult
        ensures { Executes (AddInitial (message_of m)) state counters result.answer result.state result.counters };

    fn begin(state: Runtime, counters: Counters, horizon: SimTime, budget: u64) -> CallResult
        ensures { Executes (Begin (ticks_of horizon) budget) state counters result.answer result.state result.counters };

    fn step(state: Runtime, counters: Counters) -> CallResult
        ensures { Executes Step state counters result.answer result.state result.counters };

    fn hand_back(state: Runtime, counters: Counters, mask: u64, reply: &[u64]) -> CallResult
        ensures { Executes (HandBack mask (emissions_of (length reply.now / 8) reply.now)) state counters result.answer result.state result.counters };
}

// Those of `runtime`.
pub struct ByValue;

impl Calls for ByValue {
    fn add_initial(state: Runtime, counters: Counters, m: Message) -> CallResult {
        runtime::add_initial(state, counters, m)
    }

    fn begin(state: Runtime, counters: Counters, horizon: SimTime, budget: u64) -> CallResult {
        runtime::begin(state, counters, horizon, budget)
    }

    fn step(state: Runtime, counters: Counters) -> CallResult {
        runtime::step(state, counters)
    }

    fn hand_back(state: Runtime, counters: Counters, mask: u64, reply: &[u64]) -> CallResult {
        runtime::hand_back(state, counters, mask, reply)
    }
}

// Add initial or begin.
fn add_or_begin<C: Calls>(
    state: Runtime,
    counters: Counters,
    words: &[u64],
    at: usize,
) -> CallResult
    requires { (0 < size (decode words.now at)) × (get_or words.now at 0 < 2) }
    ensures { Executes (call_of (decode words.now at)) state counters result.answer result.state result.counters }
{
    if words[at] == BEGIN {
        let horizon = words::tick_in(words, at + 1);
        return C::begin(state, counters, horizon, words[at + 3]);
    }
    let m = call_words::message_in(words, at + 1);
    C::add_initial(state, counters, m)
}

// Carries out the call at that place, which can be decoded.
pub fn execute<C: Calls>(state: Runtime, counters: Counters, words: &[u64], at: usize) -> CallResult
    requires { 0 < size (decode words.now at) }
    ensures { Executes (call_of (decode words.now at)) state counters result.answer result.state result.counters }
{
    let tag = words[at];
    if tag < STEP {
        return add_or_begin::<C>(state, counters, words, at);
    }
    if tag == STEP {
        return C::step(state, counters);
    }
    let mask = words[at + 1];
    let reply = call_words::reply_in(words, at);
    C::hand_back(state, counters, mask, reply)
}
