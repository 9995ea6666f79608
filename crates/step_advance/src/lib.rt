// What an advance and a refresh do to local horizons, edge bounds and GVT. Kept apart, as in frontiers: the
// table of the processes, the first ticks and H; refresh and advance write what budget_spent reads.

#![tactic(auto)]

ghost use Rattle.std.specs.Prelude.{◌≡◌, length, suc, ◌^◌, ◌-◌, ◌<◌};
ghost use Rattle.types.specs.Value.{ticks_of};
ghost use Rattle.step_advance.specs.Refreshes.{CanRefresh, Refreshes};
ghost use Rattle.step_advance.specs.Advances.{CanAdvance, Advances, BudgetSpent};

use state::Header;
use types::{SimDuration, SimTime};

// GVT after a refresh, and whether a local horizon rose.
#[derive(Clone, Copy)]
pub struct Refreshed {
    pub gvt: SimTime,
    pub rose: bool,
}

// The header with its new GVT, how many edge bounds rose, and whether anything did.
#[derive(Clone, Copy)]
pub struct Advanced {
    pub head: Header,
    pub raised: usize,
    pub rose: bool,
}

// H of a horizon that 11 let pass.
pub fn exclusive_horizon(horizon: SimTime) -> SimTime
    requires { ticks_of horizon < 2 ^ 128 - 1 }
    ensures { ticks_of result ≡ suc (ticks_of horizon) }
{
    horizon.checked_add(SimDuration::one()).unwrap_or(horizon)
}

// The local horizons of n processes rise to what record and first ticks say, and GVT to the least of the
// horizon, all pending ticks and all h - 1. A process's first tick is its least, so the pending ticks
// need not be passed once more; and the least h is at most H, so that the horizon is among the h - 1.
pub fn refresh(
    n: usize,
    gvt: SimTime,
    processes: &mut [u64],
    first: &[u64],
    top: SimTime,
) -> Refreshed
    requires { CanRefresh n processes.old first.now }
    ensures { Refreshes n (ticks_of gvt) (ticks_of top) processes.old first.now result processes.new }
{
    let raised = frontiers::raise_horizons(processes, n, first, top);
    let floor = raised.tick.min(raised.horizon.one_less());
    Refreshed {
        gvt: gvt.max(floor),
        rose: raised.rose,
    }
}

// "used >= budget and an event is eligible".
pub fn budget_spent<'a>(head: Header, processes: &'a [u64], first: &'a [u64], top: SimTime) -> bool
    requires { CanRefresh head.n processes.now first.now × (ticks_of top ≡ suc (ticks_of head.horizon)) }
    ensures { BudgetSpent head processes.now first.now result }
{
    if head.used < head.budget {
        return false;
    }
    frontiers::has_eligible_event(processes, first, head.n, top)
}

// Local horizons and edge bounds rise to what the record and the first ticks say, and GVT: horizons and
// GVT first, since the record that frontiers are read from is made anew with the bounds.
pub fn advance(
    head: Header,
    edges: &mut [u64],
    processes: &mut [u64],
    first: &mut [u64],
    top: SimTime,
) -> Advanced
    requires { CanAdvance head edges.old processes.old × (length first.old ≡ 128) × (ticks_of top ≡ suc (ticks_of head.horizon)) }
    ensures { Advances head edges.old processes.old first.old result edges.new processes.new }
{
    let refreshed = refresh(head.n, head.gvt, processes, first, top);
    let raised = frontiers::raise_bounds(edges, head.edges, first, head.n, processes, top);
    Advanced {
        head: Header {
            gvt: refreshed.gvt,
            ..head
        },
        raised,
        rose: 0 < raised || refreshed.rose,
    }
}
