// The two passes over a reply of emission records: "a lent list of emission records, each with its
// emitter". Each calls a step for each emission and does nothing else.

#![tactic(auto)]

ghost use Rattle.host_hand_back.specs.Passes.{Begun, Scanned, Admitted, Queued};

use hand_back_check::ReplyCheck;
use hand_back_enqueue::Tail;
use reply_words::Emission;
use state::{Header, Refusal};

// Each emission is checked in turn; nothing is written.
pub fn check_records(
    reply: &[Emission],
    words: &[u64; 9024],
    head: Header,
    start: Result<ReplyCheck, Refusal>,
) -> Result<ReplyCheck, Refusal>
    requires { Begun words.now head start }
    ensures { Scanned words.now head start reply.now result }
{
    let mut a = start?;
    for e in reply {
        a = host_hand_back::check_next(words, head, Ok(a), *e)?;
    }
    Ok(a)
}

// Each emission is queued in turn, straight into the pending words; where the round is not admitted,
// these are left as they are.
pub fn enqueue_records(
    reply: &[Emission],
    words: &mut [u64; 4096],
    admission: Result<Tail, Refusal>,
) -> Result<Tail, Refusal>
    requires { Admitted words.old admission reply.now }
    ensures { Queued words.old admission reply.now words.new result }
{
    let mut tail = admission?;
    for e in reply {
        tail = host_hand_back::enqueue_next(words, Ok(tail), *e)?;
    }
    Ok(tail)
}
