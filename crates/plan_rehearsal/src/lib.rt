// The rehearsal of a plan file that 37 and 38 let pass: "Build comes first, then 39, the initial events
// in turn, then the run; the first refusal ends it."

#![tactic(auto)]

ghost use Rattle.std.specs.Prelude.{◌≡◌, ◌≤◌, length};
ghost use Rattle.types.specs.Value.{duration_of};
ghost use Rattle.build.specs.Numbers.{number_of};
ghost use Rattle.plan_round.specs.Reached.{plan_of};
ghost use Rattle.plan_reader.specs.Read.{HeaderOf};
ghost use Rattle.plan_rehearsal.specs.Rehearses.{Checked, Refuses, Rehearses, early_number, number_for};
ghost use Rattle.plan_rehearsal.specs.Setups.{CanMakeRows, IsSetup, CanRun};

use build::BuildRefusal;
use build_topology::Rows;
use plan_file::Parts;
use plan_reader::PlanHeader;
use types::{MAX_EDGES, SimDuration};

// 0, or 39 where the listing is longer than the slice. Here and below a number, for it is what a host in
// C gets and what the theorem `Rehearses` is about.
fn number_for(fits: bool) -> u64
    ensures { result ≡ number_for fits }
{
    if fits {
        return 0;
    }
    39
}

// A build that was refused: the last line alone, "with zeros where nothing was built".
fn refuse(refusal: BuildRefusal, listing: &mut [u8]) -> u64
    ensures { Refuses (number_of (Err refusal)) listing.old listing.new result }
{
    let number = answer_values::build_number(Err(refusal));
    let head = build::empty_header();
    let counters = state::zero_counters();
    let fits = plan_run::end_listing(listing, 0, number, head, counters);
    number_for(fits)
}

// 1, 2, and 5 for more than 512 edges: what build refuses before it looks at rows. The arrays below have
// room for all that passes.
#[tactic(auto, using(crate::proofs::Rehearsing::early_1, crate::proofs::Rehearsing::early_2, crate::proofs::Rehearsing::early_5, crate::proofs::Rehearsing::early_0))]
fn early_refusal(n: u64, lookahead: SimDuration, edges: usize) -> Result<(), BuildRefusal>
    ensures { number_of result ≡ early_number n (duration_of lookahead) edges }
{
    if types::invalid_process_count(n) {
        return Err(BuildRefusal::InvalidPartitionCount(n));
    }
    if lookahead.is_zero() {
        return Err(BuildRefusal::InvalidLookahead);
    }
    if MAX_EDGES < edges {
        return Err(BuildRefusal::MalformedTopology);
    }
    Ok(())
}

// The run of a plan that build accepts and 39 lets pass.
fn rehearse_accepted<'a>(
    file: &'a [u8],
    parts: Parts,
    header: PlanHeader,
    rows: Rows<'a>,
    listing: &mut [u8],
) -> u64
    requires { CanRun file.now parts header rows.sources.now rows.counts.now rows.destinations.now rows.lookaheads.now }
    ensures { Rehearses file.now listing.old listing.new result }
{
    let mut edges = [0u64; 3072];
    let mut processes = [0u64; 256];
    let built = build::initialize(header.n, header.lookahead, rows, &mut edges, &mut processes);
    let mut table = [0u64; 2112];
    plan_replies::find_replies(file, parts.replies_at, parts.replies, &mut table);
    let fits = plan_run::run_built(
        built,
        &mut edges,
        &mut processes,
        header.horizon,
        header.budget,
        file,
        parts.initial_at,
        parts.initial,
        &mut table,
        listing,
    );
    number_for(fits)
}

// Build, then 39: "read the least edge lookahead, or the plan's if there is no edge".
fn rehearse_setup<'a>(
    file: &'a [u8],
    parts: Parts,
    header: PlanHeader,
    ids: &'a [u32],
    rows: Rows<'a>,
    listing: &mut [u8],
) -> u64
    requires { IsSetup file.now parts header ids.now rows.sources.now rows.counts.now rows.destinations.now rows.lookaheads.now }
    ensures { Rehearses file.now listing.old listing.new result }
{
    if let Err(refusal) = build::check(header.n, header.lookahead, ids, rows) {
        return refuse(refusal, listing);
    }
    let least = plan_limit::least_lookahead(
        rows.lookaheads,
        rows.destinations.len(),
        header.lookahead,
    );
    if plan_limit::too_long(header.horizon, least) {
        plan_text::clear(listing, 0);
        return 39;
    }
    rehearse_accepted(file, parts, header, rows, listing)
}

// The rows that build gets: every process has one, and so has any other source of an edge.
fn rehearse_rows<'a>(
    file: &'a [u8],
    parts: Parts,
    header: PlanHeader,
    from: &'a [u32],
    destinations: &'a [u32],
    lookaheads: &'a [u64],
    listing: &mut [u8],
) -> u64
    requires { CanMakeRows file.now parts header from.now destinations.now lookaheads.now }
    ensures { Rehearses file.now listing.old listing.new result }
{
    let n = header.n as usize;
    let mut ids = [0u32; 64];
    plan_rows::put_ids(&mut ids, n);
    let mut sources = [0u32; 64];
    let mut counts = [0u64; 64];
    let count = plan_rows::put_rows(n, from, &mut sources, &mut counts);
    let rows = Rows {
        sources: &sources[..count],
        counts: &counts[..count],
        destinations,
        lookaheads,
    };
    rehearse_setup(file, parts, header, &ids[..n], rows, listing)
}

// A file whose parts are known. 1, 2 and 5 come before rows are made.
pub fn rehearse(file: &[u8], parts: Parts, listing: &mut [u8]) -> u64
    requires { Checked file.now parts }
    ensures { Rehearses file.now listing.old listing.new result }
{
    let header = plan_reader::header(file);
    if let Err(early) = early_refusal(header.n, header.lookahead, parts.edges) {
        return refuse(early, listing);
    }
    let count = parts.edges;
    let mut from = [0u32; 512];
    let mut destinations = [0u32; 512];
    plan_rows::read_edges(file, count, &mut from, &mut destinations);
    if !plan_rows::never_fall(&from[..count]) {
        return refuse(BuildRefusal::MalformedTopology, listing);
    }
    let mut lookaheads = [0u64; 1024];
    plan_rows::read_lookaheads(file, count, &mut lookaheads);
    let words = 2 * count;
    rehearse_rows(
        file,
        parts,
        header,
        &from[..count],
        &destinations[..count],
        &lookaheads[..words],
        listing,
    )
}
