// The check of a reply: one pass over its emissions, in whatever form they are lent, that writes
// nothing. Each is checked by 26 and by 28 to 33, unless something is refused already; 27 stands between
// the emissions of the processes before the first failed one and of those behind it.
//
// The tables are made once for a reply: the edges from each process in hand (`hand_back_edges`) and the
// place of each process's event in the batch (`reply_words`).

#![tactic(auto)]

ghost use Rattle.std.specs.Prelude.{◌≡◌, ◌*◌, ◌≤◌, ◌<◌, length, get_or, IfOk};
ghost use Rattle.types.specs.Value.{ticks_of, duration_of};
ghost use Rattle.records.specs.Records.{events_of, Owners};
ghost use Rattle.reply_words.specs.Emissions.{emission_of, emissions_of};
ghost use Rattle.hand_back_edges.specs.Looks.{look_in_table, CanLook};
ghost use Rattle.hand_back_check.specs.EmissionRows.{counted, first_failed};
ghost use Rattle.hand_back_check.specs.Checks.{Checkable, start_of, checked_as, tick_of, ChecksFrom, CheckStarted, CheckedFrom};

use reply_words::Emission;
use state::{Header, Refusal};
use types::{LpId, SimDuration, SimTime};

// What a reply is checked against: the header, and arrays of which nothing is written.
#[derive(Clone, Copy)]
pub struct Lent<'a> {
    pub head: Header,
    pub edges: &'a [u64],
    pub processes: &'a [u64],
    pub batch: &'a [u64],
}

// How far a reply is checked that is well formed so far. `outcome` is what 28 to 33 say of it so far,
// `failed` the first process in hand that failed, `last` the last emitter, and `remote` how many
// emissions are remote. A reply that is refused with the state left as given has none of this: its check
// answers the refusal.
#[derive(Clone, Copy)]
pub struct ReplyCheck {
    pub last: u64,
    pub remote: u64,
    pub mask: u64,
    pub failed: Option<LpId>,
    pub outcome: Result<(), Refusal>,
}

// No emission is checked yet.
pub fn start(mask: u64, failed: Option<LpId>) -> ReplyCheck
    ensures { result ≡ start_of mask failed }
{
    ReplyCheck {
        last: 0,
        remote: 0,
        mask: mask,
        failed: failed,
        outcome: Ok(()),
    }
}

// The first process in hand that failed.
pub fn first_failed(batch: &[u64], count: usize, mask: u64) -> Option<LpId>
    requires { (8 * count ≤ length batch.now) × Owners count batch.now }
    ensures { result ≡ first_failed mask (events_of count batch.now) }
{
    for i in 0..count {
        let p = batch[8 * i];
        if reply_words::failed(mask, p) {
            return Some(LpId::from_word(p));
        }
    }
    None
}

// "remote (destination is not source)"
fn count_remote(remote: u64, e: Emission) -> u64
    ensures { result ≡ counted remote (emission_of e) }
{
    if e.destination.eq(e.source) {
        return remote;
    }
    state::saturating_add(remote, 1)
}

// The tick of p's event in hand.
fn tick_of<'a>(places: &'a [u64], batch: &'a [u64], p: u64) -> SimTime
    requires { (length places.now ≡ 64) × (length batch.now ≡ 512) × (p < 64) × (0 < get_or places.now p 0) × (get_or places.now p 0 ≤ 64) }
    ensures { ticks_of result ≡ tick_of places.now batch.now p }
{
    let k = places[p as usize] as usize - 1;
    words::tick_in(batch, 8 * k + 1)
}

// The emission of p is checked.
fn checked(a: ReplyCheck, p: u64, remote: u64, verdict: Result<(), Refusal>) -> ReplyCheck
    ensures { result ≡ checked_as a p remote verdict }
{
    ReplyCheck {
        last: p,
        remote: remote,
        outcome: verdict,
        ..a
    }
}

// 26 of the emission e, then 28 to 33 unless something is refused already or a process before e's
// failed; `lookahead` is that of the edge that e goes along. A check that has stopped is given back as it
// is.
// Kept with each array by itself, not as Lent: it reads no edges, and host_hand_back, which calls it for
// each record, has these arrays as parts of one.
pub fn check<'a>(
    head: Header,
    lookahead: SimDuration,
    places: &'a [u64],
    processes: &'a [u64],
    batch: &'a [u64],
    a: Result<ReplyCheck, Refusal>,
    e: Emission,
) -> Result<ReplyCheck, Refusal>
    requires { IfOk a (λ _. Checkable head places.now processes.now batch.now) }
    ensures { ChecksFrom head (duration_of lookahead) places.now processes.now batch.now a e result }
{
    let a = a?;
    if reply_words::malformed_emission(e, a.last, a.mask, places) {
        return Err(Refusal::MalformedReply);
    }
    let emitter = e.emitter.to_word();
    let remote = count_remote(a.remote, e);
    let so_far = a.outcome;
    if so_far.is_err() {
        return Ok(checked(a, emitter, remote, so_far));
    }
    if a.failed.is_some_and(|p| p.to_word() < emitter) {
        return Ok(checked(a, emitter, remote, so_far));
    }
    let time = tick_of(places, batch, emitter);
    let verdict = hand_back_emission::check_emission(head, lookahead, processes, e, time);
    Ok(checked(a, emitter, remote, verdict))
}

// The emissions of a reply in words, each in turn; a check that has stopped before the first of them is
// given back as it is. Kept with their count beside the words: the clause is
// of the first `count`, whatever `count` is.
pub fn check_words<'a>(
    lent: Lent<'a>,
    table: &'a [u16],
    places: &'a [u64],
    start: Result<ReplyCheck, Refusal>,
    reply: &'a [u64],
    count: usize,
) -> Result<ReplyCheck, Refusal>
    requires { IfOk start (λ a. CheckStarted lent.head places.now lent.processes.now lent.batch.now a) × CanLook lent.edges.now table.now places.now × (8 * count ≤ length reply.now) }
    ensures { CheckedFrom lent.entry.head (look_in_table lent.entry.edges.now table.now places.now) places.now lent.entry.processes.now lent.entry.batch.now start (emissions_of count reply.now) result }
{
    let mut a = start?;
    for i in 0..count {
        let e = reply_words::emission_in(reply, 8 * i);
        let lookahead = hand_back_edges::lookahead_of(lent.edges, table, places, e);
        a = check(
            lent.head,
            lookahead,
            places,
            lent.processes,
            lent.batch,
            Ok(a),
            e,
        )?;
    }
    Ok(a)
}
