// The replies of a plan file, found by a table: for each process its next reply, for each reply where
// it stands and which is the next of its process. So no round looks for a reply. Kept as words with links
// by number: a rehearsal has no heap, and the table is lent.

#![tactic(auto)]

ghost use Rattle.std.specs.Prelude.{◌*◌, ◌<◌, ◌≤◌, length};
ghost use Rattle.records.specs.Records.{events_of, Owners};
ghost use Rattle.plan_replies.specs.Fills.{CanReply, Takes, Fills};
ghost use Rattle.plan_replies.specs.Finds.{CanFind, Notes, CanLinkOne, LinksOne, CanLink, Links, Finds};

use types::LpId;

// The words of a table: a link for each process, and two words for each of at most 1,023 replies.
pub const TABLE: usize = 2112;

// Where each of the replies stands, the first of them at the bit `at`.
fn note_places(s: &[u8], at: usize, count: usize, table: &mut [u64])
    requires { CanFind s.now at count table.old }
    ensures { Notes s.now at count table.new }
{
    let mut p = at;
    for k in 0..count {
        table[64 + 2 * k] = p as u64;
        let Some(q) = plan_file::skip_reply(s, p) else {
            return;
        };
        p = q;
    }
}

// The reply k is linked before the others of its process: the one that its process had so far is the
// next.
fn link_reply(s: &[u8], k: usize, table: &mut [u64])
    requires { CanLinkOne s.now k table.old }
    ensures { LinksOne s.now k table.old table.new }
{
    let process = bits::read(s, table[64 + 2 * k] as usize, 6) as usize;
    table[65 + 2 * k] = table[process];
    table[process] = (k + 1) as u64;
}

// The links, from the last reply to the first.
fn link_replies(s: &[u8], count: usize, table: &mut [u64])
    requires { CanLink s.now count table.old }
    ensures { Links s.now count table.old table.new }
{
    for k in (0..count).rev() {
        link_reply(s, k, table);
    }
}

// The table of the replies, of which the first stands at the bit `at`.
pub fn find_replies(s: &[u8], at: usize, count: usize, table: &mut [u64])
    requires { CanFind s.now at count table.old }
    ensures { Finds s.now at count table.new }
{
    note_places(s, at, count, table);
    link_replies(s, count, table);
}

// The reply that is due to an event of the process goes behind the emissions that are there; how many
// there are then. The process's link goes on to its next reply.
fn take_reply(s: &[u8], process: usize, table: &mut [u64], reply: &mut [u64], have: usize) -> usize
    requires { CanReply s.now table.old reply.old have × (process < 64) }
    ensures { Takes s.now table.old reply.old have process table.new reply.new result }
{
    let link = table[process] as usize;
    if link == 0 {
        return have;
    }
    let at = table[62 + 2 * link] as usize;
    table[process] = table[63 + 2 * link];
    plan_reader::emissions_to(s, at + 6, LpId::from_word(process as u64), reply, have)
}

// The replies that are due to the events of a batch, one behind the other; how many emissions there
// are.
pub fn fill_reply<'a>(
    s: &'a [u8],
    batch: &'a [u64],
    count: usize,
    table: &mut [u64],
    reply: &mut [u64],
) -> usize
    requires { CanReply s.now table.old reply.old 0 × (8 * count ≤ length batch.now) × Owners count batch.now }
    ensures fills { Fills s.now table.old (events_of count batch.now) table.new reply.new result }
    ensures result_in_bounds { 8 * result ≤ length reply.new }
{
    let mut emitted: usize = 0;
    for i in 0..count {
        emitted = take_reply(s, batch[8 * i] as usize, table, reply, emitted);
    }
    emitted
}
