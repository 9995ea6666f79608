// The core of add initial: what it does with a state that 11 let pass.

#![tactic(auto)]

ghost use Rattle.std.specs.Prelude.{◌≡◌, ◌*◌, ◌≤◌, length};
ghost use Rattle.types.specs.Value.{lp_id_of};
ghost use Rattle.rules.specs.Pending.{route};
ghost use Rattle.records.specs.Records.{edges_of};
ghost use Rattle.schedule_initial.specs.AddsInitial.{HasRoom, QueueRefusal, InitialRefusal, CanEnqueue, Enqueues, AddsInitial, record_of};

use records::Record;
use state::{Answer, Header, HeaderResult, Message, Refusal};
use types::MAX_PAYLOAD;

// The message as a pending record with the sequence number `sequence`.
fn record_of(m: Message, seq: u64) -> Record
    ensures { result ≡ record_of m seq }
{
    Record {
        destination: m.destination.to_word(),
        hi: m.tick.hi,
        lo: m.tick.lo,
        source: m.source.to_word(),
        sequence: seq,
        len: m.len,
        payload_hi: m.payload_hi,
        payload_lo: m.payload_lo,
    }
}

// Row 16: whether a route leads from the message's source to its destination.
fn has_route(edges: &[u64], count: usize, m: Message) -> bool
    requires { 6 * count ≤ length edges.now }
    ensures { result ≡ route (edges_of count edges.now) (lp_id_of m.source) (lp_id_of m.destination) }
{
    edges::has_route(edges, count, m.source.to_word(), m.destination.to_word())
}

// Rows 17, 18 and 19.
fn queue_refusal(head: Header, m: Message) -> Result<(), Refusal>
    ensures { QueueRefusal head m result }
{
    if MAX_PAYLOAD < m.len {
        return Err(Refusal::PayloadTooLong(m.len));
    }
    if state::is_queue_full(head.pending, 1) {
        return Err(Refusal::QueueFull);
    }
    if state::sequence_exhausted(head.next, 1) {
        return Err(Refusal::EventSequenceOverflow);
    }
    Ok(())
}

// Rows 12 to 16, then those of the queue.
fn refusal(head: Header, edges: &[u64], m: Message) -> Result<(), Refusal>
    requires { 6 * head.edges ≤ length edges.now }
    ensures { InitialRefusal head edges.now m result }
{
    if head.poisoned {
        return Err(Refusal::Poisoned);
    }
    if !head.initial {
        return Err(Refusal::InitialEventsAlreadyClosed);
    }
    let n = head.n as u64;
    if n <= m.source.to_word() {
        return Err(Refusal::UnknownInitialSource(m.source));
    }
    if n <= m.destination.to_word() {
        return Err(Refusal::UnknownInitialDestination(m.destination));
    }
    if !has_route(edges, head.edges, m) {
        return Err(Refusal::InitialRouteMissing(m.source, m.destination));
    }
    queue_refusal(head, m)
}

// The message is pending, with the next sequence number.
fn enqueue(head: Header, pending: &mut [u64], m: Message) -> Header
    requires { CanEnqueue head pending.old × HasRoom head m }
    ensures { Enqueues head pending.old m result pending.new }
{
    let r = record_of(m, head.next);
    records::insert(pending, head.pending, r);
    Header {
        pending: head.pending + 1,
        next: head.next + 1,
        ..head
    }
}

// The rows; then the queue.
pub fn add_initial(head: Header, edges: &[u64], pending: &mut [u64], m: Message) -> HeaderResult
    requires { (6 * head.edges ≤ length edges.now) × CanEnqueue head pending.old }
    ensures { AddsInitial head edges.now pending.old m result pending.new }
{
    match refusal(head, edges, m) {
        Ok(()) => HeaderResult {
            answer: Ok(Answer::Accepted),
            head: enqueue(head, pending, m),
        },
        Err(refusal) => HeaderResult {
            answer: Err(refusal),
            head,
        },
    }
}
