// Plan for a caller in C, to be timed.

#![tactic(auto)]

use types::SimDuration;

// How many entities were written; 0 where plan is refused.
#[unsafe(no_mangle)]
pub extern "C" fn timed_plan(count: u64, lookahead: u64, given: &[u64], lent: &mut [u64]) -> u64 {
    partition::plan(count, SimDuration::from_ticks(0, lookahead), given, lent).unwrap_or(0)
}
