// The calls and reads of docs/CALLS.md by either face, so that one session serves both: those of
// `runtime` and `reads`, by value, or those of `host`, with the counters lent and a reply of records. The
// contracts are the same.

#![tactic(auto)]

ghost use Rattle.types.specs.Value.{duration_of};
ghost use Rattle.rules.specs.Build.{setup};
ghost use Rattle.rules.specs.Reads.{read_gvt, read_counters, read_pending, read_earliest};
ghost use Rattle.build_topology.specs.Lookaheads.{lookaheads_for};
ghost use Rattle.runtime.specs.Builds.{Builds};
ghost use Rattle.reads.specs.Reads.{Reads};
ghost use Rattle.call_faces.specs.Tags.{read_by};

use build_topology::Rows;
use call_host::ByHost;
use call_runtime::{ByValue, Calls};
use reads::Reading;
use runtime::BuildResult;
use state::{Counters, Refusal, Runtime};
use types::SimDuration;

// The tags of the reads. Any other is taken for that of the earliest pending tick.
const READ_GVT: u64 = 4;

const READ_COUNTERS: u64 = 5;

const READ_PENDING: u64 = 6;

// All that a program of docs/CALLS.md calls.
pub trait Face: Calls {
    fn build(
        n: u64,
        lookahead: SimDuration,
        ids: &[u32],
        rows: Rows<'_>,
        counters: Counters,
    ) -> BuildResult
        ensures { Builds (setup n (duration_of lookahead) ids.now rows.entry.sources.now rows.entry.counts.now rows.entry.destinations.now (lookaheads_for rows.entry.destinations.now rows.entry.lookaheads.now)) counters result };

    fn read_gvt(state: Runtime, counters: Counters) -> Result<Reading, Refusal>
        ensures { Reads read_gvt state counters result };

    fn read_counters(state: Runtime, counters: Counters) -> Result<Reading, Refusal>
        ensures { Reads read_counters state counters result };

    fn read_pending(state: Runtime, counters: Counters) -> Result<Reading, Refusal>
        ensures { Reads read_pending state counters result };

    fn read_earliest(state: Runtime, counters: Counters) -> Result<Reading, Refusal>
        ensures { Reads read_earliest state counters result };
}

impl Face for ByValue {
    fn build(
        n: u64,
        lookahead: SimDuration,
        ids: &[u32],
        rows: Rows<'_>,
        counters: Counters,
    ) -> BuildResult {
        runtime::build(n, lookahead, ids, rows, counters)
    }

    fn read_gvt(state: Runtime, counters: Counters) -> Result<Reading, Refusal> {
        reads::read_gvt(state, counters)
    }

    fn read_counters(state: Runtime, counters: Counters) -> Result<Reading, Refusal> {
        reads::read_counters(state, counters)
    }

    fn read_pending(state: Runtime, counters: Counters) -> Result<Reading, Refusal> {
        reads::read_pending(state, counters)
    }

    fn read_earliest(state: Runtime, counters: Counters) -> Result<Reading, Refusal> {
        reads::read_earliest(state, counters)
    }
}

impl Face for ByHost {
    fn build(
        n: u64,
        lookahead: SimDuration,
        ids: &[u32],
        rows: Rows<'_>,
        counters: Counters,
    ) -> BuildResult {
        host_by_value::build(n, lookahead, ids, rows, counters)
    }

    fn read_gvt(state: Runtime, counters: Counters) -> Result<Reading, Refusal> {
        host_by_value::read_gvt(state, counters)
    }

    fn read_counters(state: Runtime, counters: Counters) -> Result<Reading, Refusal> {
        host_by_value::read_counters(state, counters)
    }

    fn read_pending(state: Runtime, counters: Counters) -> Result<Reading, Refusal> {
        host_by_value::read_pending(state, counters)
    }

    fn read_earliest(state: Runtime, counters: Counters) -> Result<Reading, Refusal> {
        host_by_value::read_earliest(state, counters)
    }
}

// The read with that tag.
#[tactic(auto, using(crate::proofs::Reading::reads_4, crate::proofs::Reading::reads_5, crate::proofs::Reading::reads_6, crate::proofs::Reading::reads_other))]
pub fn read<F: Face>(state: Runtime, counters: Counters, tag: u64) -> Result<Reading, Refusal>
    ensures { Reads (read_by tag) state counters result }
{
    match tag {
        READ_GVT => F::read_gvt(state, counters),
        READ_COUNTERS => F::read_counters(state, counters),
        READ_PENDING => F::read_pending(state, counters),
        _ => F::read_earliest(state, counters),
    }
}
