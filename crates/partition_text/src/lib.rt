// A plan of docs/CALLS.md: read from standard input, carried out, and its line printed.

#![tactic(auto)]

ghost use Rattle.std.specs.Prelude.{◌≡◌, ◌≤◌};
ghost use Rattle.partition.specs.PlanNumbers.{number_of, values_of};
ghost use Rattle.partition_text.specs.Values.{list_of};

use partition::PlanRefusal;
use text_input::STDIN_FILENO;
use text_output::Gathered;
use types::SimDuration;

// A plan of more entities or more places is taken for something that cannot be decoded.
const MAX_ITEMS: u64 = 4096;

const MAX_WORDS: usize = 8192;

// Document 01's number of an answer.
fn number_of(answer: Result<u64, PlanRefusal>) -> u64
    ensures { result ≡ number_of answer }
{
    match answer {
        Ok(_) => 0,
        Err(PlanRefusal::InvalidPartitionCount(_)) => 1,
        Err(PlanRefusal::InvalidLookahead) => 2,
        Err(PlanRefusal::EmptyPartitionEntities) => 34,
        Err(PlanRefusal::DuplicatePartitionEntity(_, _)) => 35,
        Err(PlanRefusal::TooManyEntities) => 36,
    }
}

// The values that come with an answer: none, one or two, so that an Option would not do.
#[derive(Clone, Copy)]
enum PlanValues {
    Nothing,
    Count(u64),
    Entity(u64, u64),
}

fn values_of(answer: Result<u64, PlanRefusal>) -> PlanValues
    ensures { list_of result ≡ values_of answer }
{
    match answer {
        Ok(count) => PlanValues::Count(count),
        Err(PlanRefusal::InvalidPartitionCount(count)) => PlanValues::Count(count),
        Err(PlanRefusal::InvalidLookahead) => PlanValues::Nothing,
        Err(PlanRefusal::EmptyPartitionEntities) => PlanValues::Nothing,
        Err(PlanRefusal::DuplicatePartitionEntity(index, generation)) => PlanValues::Entity(
            index, generation,
        ),
        Err(PlanRefusal::TooManyEntities) => PlanValues::Nothing,
    }
}

fn put_number(out: &mut Gathered, number: u64) {
    if number == 0 {
        out.put(b"planned");
        return;
    }
    out.put(b"refused");
    out.put_next(b' ', number);
}

fn put_entity(out: &mut Gathered, separator: u8, index: u64, generation: u64) {
    out.put_next(b' ', index);
    out.put_next(separator, generation);
}

fn put_values(out: &mut Gathered, values: PlanValues) {
    match values {
        PlanValues::Nothing => {}
        PlanValues::Count(count) => out.put_next(b' ', count),
        PlanValues::Entity(index, generation) => put_entity(out, b' ', index, generation),
    }
}

fn put_answer(out: &mut Gathered, answer: Result<u64, PlanRefusal>) {
    put_number(out, number_of(answer));
    put_values(out, values_of(answer));
}

// The entities of the lent list behind a bar, each behind a space. A list of no places leaves its
// space.
fn put_list(out: &mut Gathered, lent: &[u64]) {
    out.put(b" |");
    if lent.len() < 2 {
        out.put_byte(b' ');
    }
    for pair in lent.chunks_exact(2) {
        put_entity(out, b':', pair[0], pair[1]);
    }
}

fn print_line(answer: Result<u64, PlanRefusal>, lent: &[u64]) {
    let mut out = Gathered::new();
    put_answer(&mut out, answer);
    put_list(&mut out, lent);
    out.end_line();
}

// Reads the entities, plans, and prints the line. None where the input breaks off.
fn execute(count: u64, lookahead: SimDuration, given: &mut [u64], lent: &mut [u64]) -> Option<()> {
    if text_input::read_words(STDIN_FILENO, given) < given.len() {
        return None;
    }
    print_line(partition::plan(count, lookahead, given, lent), lent);
    Some(())
}

// The same, with room for the entities and for the lent list. Its places hold 0:0.
fn execute_in_buffers(
    count: u64,
    lookahead: SimDuration,
    places: usize,
    entities: usize,
) -> Option<()>
    requires { (places ≤ 4096) × (entities ≤ 4096) }
{
    let mut given = [0u64; MAX_WORDS];
    let mut lent = [0u64; MAX_WORDS];
    let given_end = entities * 2;
    let lent_end = places * 2;
    execute(
        count,
        lookahead,
        &mut given[..given_end],
        &mut lent[..lent_end],
    )
}

// The next plan, where it could be decoded.
pub fn execute_plan() -> Option<()> {
    let mut head = [0u64; 5];
    if text_input::read_words(STDIN_FILENO, &mut head) < 5 {
        return None;
    }
    let [count, hi, lo, places, entities] = head;
    if MAX_ITEMS < places || MAX_ITEMS < entities {
        return None;
    }
    let lookahead = SimDuration::from_ticks(hi, lo);
    execute_in_buffers(count, lookahead, places as usize, entities as usize)
}
