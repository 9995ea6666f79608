// 39: floor(horizon / lookahead) above 65,536, by the least lookahead of an edge (A.4).

#![tactic(auto)]

ghost use Rattle.std.specs.Prelude.{◌≡◌, ◌/◌, ◌*◌, ◌≤◌, leb, length};
ghost use Rattle.rules.specs.Build.{least_lookahead};
ghost use Rattle.types.specs.Value.{ticks_of, duration_of};
ghost use Rattle.words.specs.Words.{ticks_in};

use types::{SimDuration, SimTime};

// "the least edge lookahead, or the plan's if there is no edge": of the lookaheads of so many edges, two
// words each, the upper half first. Kept with its count: the slice may be longer (the clause says so).
#[tactic(auto, using(crate::proofs::Leasts::no_edge))]
pub fn least_lookahead(lookaheads: &[u64], count: usize, plan: SimDuration) -> SimDuration
    requires { 2 * count ≤ length lookaheads.now }
    ensures { duration_of result ≡ least_lookahead (duration_of plan) (ticks_in count lookaheads.now) }
{
    if count == 0 {
        return plan;
    }
    let mut least = words::tick_in(lookaheads, 0);
    for i in 1..count {
        least = least.min(words::tick_in(lookaheads, 2 * i));
    }
    SimDuration::from_ticks(least.hi, least.lo)
}

// A tick divided by 65,537, in pieces of 32 bits: what is left of one piece stands before the next.
fn divide(t: SimTime) -> SimTime
    ensures { ticks_of result ≡ ticks_of t / 65537 }
{
    let middle = t.hi % 65537 * 4294967296 + t.lo / 4294967296;
    let low = middle % 65537 * 4294967296 + t.lo % 4294967296;
    SimTime {
        hi: t.hi / 65537,
        lo: middle / 65537 * 4294967296 + low / 65537,
    }
}

// Whether 65,537 times the lookahead is at most the horizon.
pub fn too_long(horizon: SimTime, lookahead: SimDuration) -> bool
    ensures { result ≡ leb (65537 * duration_of lookahead) (ticks_of horizon) }
{
    let longest = divide(horizon);
    let given = SimTime::after_zero(lookahead);
    !longest.lt(given)
}
