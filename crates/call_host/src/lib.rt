// The calls of `host` for `call_runtime`, which reads them from words: the counters are lent, and the
// words of a reply are made the records that `host` takes.

#![tactic(auto)]

ghost use Rattle.std.specs.Prelude.{◌≡◌, ◌*◌, ◌≤◌, length, take};
ghost use Rattle.reply_words.specs.Emissions.{emissions_of};
ghost use Rattle.host_hand_back.specs.Passes.{reply_of};

use call_runtime::Calls;
use reply_words::Emission;
use runtime::CallResult;
use state::{Counters, Message, Runtime};
use types::{LpId, MAX_PENDING, SimTime};

// What stands in the places of an array that no emission has.
fn no_emission() -> Emission {
    Emission {
        emitter: LpId(0),
        source: LpId(0),
        destination: LpId(0),
        tick: SimTime::ZERO,
        len: 0,
        payload_hi: 0,
        payload_lo: 0,
    }
}

// The first `count` emissions of a reply in words, to the front of an array.
fn emissions_in(reply: &[u64], count: usize) -> [Emission; MAX_PENDING]
    requires { (count ≤ 512) × (8 * count ≤ length reply.now) }
    ensures { reply_of (take count result) ≡ emissions_of count reply.now }
{
    let mut emissions = [no_emission(); MAX_PENDING];
    for i in 0..count {
        emissions[i] = reply_words::emission_in(reply, 8 * i);
    }
    emissions
}

// Those of `host`.
pub struct ByHost;

impl Calls for ByHost {
    fn add_initial(state: Runtime, counters: Counters, m: Message) -> CallResult {
        host_by_value::add_initial(state, counters, m)
    }

    fn begin(state: Runtime, counters: Counters, horizon: SimTime, budget: u64) -> CallResult {
        host_by_value::begin(state, counters, horizon, budget)
    }

    fn step(state: Runtime, counters: Counters) -> CallResult {
        host_by_value::step(state, counters)
    }

    // The reply goes to `host` as a slice of records. One that is longer than the array, which is never
    // accepted, goes to `runtime`, which is proved to answer the same.
    fn hand_back(state: Runtime, counters: Counters, mask: u64, reply: &[u64]) -> CallResult {
        let count = reply.len() / 8;
        if MAX_PENDING < count {
            return runtime::hand_back(state, counters, mask, reply);
        }
        host_by_value::hand_back(state, counters, mask, emissions_in(reply, count), count)
    }
}
