// Build on lent lists: its checks 1 to 10 and 40 in their order, and the header, the edges and the
// record that an accepted build makes.

#![tactic(auto)]

ghost use Rattle.std.specs.Prelude.{◌≡◌, ◌≤◌, Err};
ghost use Rattle.types.specs.Value.{duration_of};
ghost use Rattle.build_topology.specs.Checks.{refusal_of};
ghost use Rattle.build.specs.Checks.{answer_of, answer_for, ChecksProcesses, ChecksTopology, ChecksBuild};
ghost use Rattle.build.specs.Initialized.{CanInitialize, Initializes, empty_header, empty_runtime};

use build_topology::{Rows, TopologyRefusal};
use state::{Header, Runtime};
use types::{LpId, SimDuration, SimTime};

// Why build refuses: its rows' values come with each.
#[derive(Clone, Copy)]
pub enum BuildRefusal {
    InvalidPartitionCount(u64),
    InvalidLookahead,
    UnorderedProcesses,
    ProcessSetMismatch(u64, u64),
    MalformedTopology,
    MissingTopologyEntry(LpId),
    UnknownTopologySource(LpId),
    UnknownTopologyDestination(LpId, LpId),
    SelfLoop(LpId),
    DuplicateNeighbor(LpId, LpId),
    InvalidEdgeLookahead,
}

// 7 to 10 and 40.
impl From<TopologyRefusal> for BuildRefusal {
    ghost from_gives = { λ fault why. answer_of (Err why) ≡ answer_for (refusal_of (Err fault)) };

    fn from(fault: TopologyRefusal) -> BuildRefusal {
        match fault {
            TopologyRefusal::UnknownTopologySource(p) => BuildRefusal::UnknownTopologySource(p),
            TopologyRefusal::UnknownTopologyDestination(p, d) =>
                BuildRefusal::UnknownTopologyDestination(p, d),
            TopologyRefusal::SelfLoop(p) => BuildRefusal::SelfLoop(p),
            TopologyRefusal::DuplicateNeighbor(p, d) => BuildRefusal::DuplicateNeighbor(p, d),
            TopologyRefusal::InvalidEdgeLookahead => BuildRefusal::InvalidEdgeLookahead,
        }
    }
}

// 1 to 4.
fn check_processes(n: u64, lookahead: SimDuration, ids: &[u32]) -> Result<(), BuildRefusal>
    ensures { ChecksProcesses n (duration_of lookahead) ids.now result }
{
    if types::invalid_process_count(n) {
        return Err(BuildRefusal::InvalidPartitionCount(n));
    }
    if lookahead.is_zero() {
        return Err(BuildRefusal::InvalidLookahead);
    }
    if !build_ids::rising(ids) {
        return Err(BuildRefusal::UnorderedProcesses);
    }
    let found = build_ids::check_ids(ids, n);
    if found.missing == 0 && found.unexpected == 0 {
        return Ok(());
    }
    Err(BuildRefusal::ProcessSetMismatch(found.missing, found.unexpected))
}

// 5 to 10 and 40.
fn check_topology(n: u64, rows: Rows<'_>) -> Result<(), BuildRefusal>
    requires { n ≤ 64 }
    ensures { ChecksTopology n rows.entry.sources.now rows.entry.counts.now rows.entry.destinations.now rows.entry.lookaheads.now result }
{
    if !rows.is_well_formed() {
        return Err(BuildRefusal::MalformedTopology);
    }
    if let Some(p) = build_ids::least_without_row(rows.sources, n) {
        return Err(BuildRefusal::MissingTopologyEntry(p));
    }
    rows.check(n)?;
    Ok(())
}

// 1 to 10 and 40.
pub fn check(
    n: u64,
    lookahead: SimDuration,
    ids: &[u32],
    rows: Rows<'_>,
) -> Result<(), BuildRefusal>
    ensures { ChecksBuild n (duration_of lookahead) ids.now rows.entry.sources.now rows.entry.counts.now rows.entry.destinations.now rows.entry.lookaheads.now result }
{
    check_processes(n, lookahead, ids)?;
    check_topology(n, rows)
}

// The header of an accepted build, its edges as words, and the record of their least inbound bounds.
pub fn initialize(
    n: u64,
    lookahead: SimDuration,
    rows: Rows<'_>,
    edges: &mut [u64],
    processes: &mut [u64],
) -> Header
    requires { CanInitialize n (duration_of lookahead) rows.sources.now rows.counts.now rows.destinations.now rows.lookaheads.now edges.old processes.old }
    ensures { Initializes n (duration_of lookahead) rows.entry.sources.now rows.entry.counts.now rows.entry.destinations.now rows.entry.lookaheads.now edges.old edges.new processes.new result }
{
    build_edges::write_edges(rows, edges);
    inbound::record_inbound(edges, rows.destinations.len(), n as usize, processes);
    Header {
        n: n as usize,
        lookahead,
        edges: rows.destinations.len(),
        initial: true,
        ..empty_header()
    }
}

// "nothing made": a header without processes, which every later call refuses.
pub fn empty_header() -> Header
    ensures { result ≡ empty_header }
{
    Header::default()
}

// The state of a refused build: all zeros.
pub fn empty_runtime() -> Runtime
    ensures { result ≡ empty_runtime }
{
    Runtime {
        edges: [0; 3072],
        pending: [0; 4096],
        processes: [0; 256],
        batch: [0; 512],
        head: empty_header(),
    }
}
