// Rows 28 to 33 of hand back, of one emission.

#![tactic(auto)]

ghost use Rattle.std.specs.Prelude.{◌≡◌, not, ◌||◌, ◌*◌, ◌<◌, eqb, length};
ghost use Rattle.types.specs.Value.{ticks_of, duration_of, lp_id_of, IsSum};
ghost use Rattle.words.specs.Words.{tick_at};
ghost use Rattle.rules.specs.HandBack.{minimum};
ghost use Rattle.reply_words.specs.Emissions.{emission_of};
ghost use Rattle.hand_back_emission.specs.Checks.{ChecksRows, tick_rows, CanCheck, ChecksEmission};

use reply_words::Emission;
use state::{Header, Refusal};
use types::{SimDuration, SimTime};

// "The minimum tick is the event's tick for an emission to oneself, else that tick + L." A.4: L is that
// of the edge.
fn minimum_tick(e: Emission, time: SimTime, lookahead: SimDuration) -> Option<SimTime>
    ensures { IsSum (minimum (duration_of lookahead) (lp_id_of e.emitter) (ticks_of time) (emission_of e).message) result }
{
    if e.destination.eq(e.emitter) {
        return Some(time);
    }
    time.checked_add(lookahead)
}

// 32 and 33 of an emission whose minimum is `least`.
fn check_tick(processes: &[u64], e: Emission, time: SimTime, least: SimTime) -> Result<(), Refusal>
    requires { (length processes.now ≡ 256) × (lp_id_of e.destination < 64) }
    ensures { ChecksRows (tick_rows (emission_of e) (ticks_of time) (ticks_of least) (tick_at processes.now (2 * lp_id_of e.destination))) result }
{
    let tick = e.tick;
    let emitter = e.emitter;
    let destination = e.destination;
    let to = destination.to_word();
    let local = words::tick_in(processes, 2 * to as usize);
    if tick.lt(least) {
        return Err(Refusal::OutboundLookaheadViolation(emitter, time, tick, least));
    }
    if tick.lt(local) {
        return Err(Refusal::Straggler(destination, tick, local));
    }
    Ok(())
}

// "A route exists from a process to itself and along an edge": an edge's lookahead is above 0.
fn has_route(e: Emission, lookahead: SimDuration) -> bool
    ensures { result ≡ (eqb (lp_id_of e.emitter) (lp_id_of e.destination) || not (eqb (duration_of lookahead) 0)) }
{
    e.emitter.eq(e.destination) || !lookahead.is_zero()
}

// 28 to 33 of one emission, whose emitter's event has the tick `time`; `lookahead` is that of the edge
// that it goes along, 0 where there is none.
pub fn check_emission(
    head: Header,
    lookahead: SimDuration,
    processes: &[u64],
    e: Emission,
    time: SimTime,
) -> Result<(), Refusal>
    requires { CanCheck head processes.now }
    ensures { ChecksEmission head (duration_of lookahead) processes.now e time result }
{
    let emitter = e.emitter;
    let source = e.source;
    if !source.eq(emitter) {
        return Err(Refusal::OutboundSourceMismatch(emitter, source));
    }
    let n = head.n as u64;
    let destination = e.destination;
    if n <= destination.to_word() {
        return Err(Refusal::UnknownOutboundDestination(destination));
    }
    if !has_route(e, lookahead) {
        return Err(Refusal::OutboundRouteMissing(emitter, destination));
    }
    let Some(least) = minimum_tick(e, time, lookahead) else {
        return Err(Refusal::LookaheadOverflow(emitter, time, lookahead));
    };
    check_tick(processes, e, time, least)
}
