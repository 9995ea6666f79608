// Reads a plan file from standard input and prints its listing; "nothing on 37 to 39".

#![tactic(auto)]

ghost use Rattle.std.specs.Prelude.{◌≡◌, ◌≤◌, length, take};
ghost use Rattle.plan_rules.specs.Export.{printed};
ghost use Rattle.run_plan.specs.Prints.{EndsAt};

// The descriptors of standard input and output.
const STDIN_FILENO: i32 = 0;

const STDOUT_FILENO: i32 = 1;

// How long the text is that zeros stand behind: a listing ends with a line feed.
fn text_length(text: &[u8]) -> usize
    ensures { EndsAt text.now result }
{
    text.iter()
        .rposition(|byte| *byte != 0)
        .map_or(0, |last| last + 1)
}

// The bytes that are printed: so many of the slice, which has room for every listing.
fn rehearse(plan: &[u8], listing: &mut [u8]) -> usize
    requires { length listing.old ≡ 35194 }
    ensures listing_after { take result listing.new ≡ printed plan.now }
    ensures upper_bound { result ≤ length listing.new }
{
    // Kept by hand: a number, which is what the export gives a host in C.
    if 0 < dorrezubi::dorrezubi_run_plan(plan, listing) {
        return 0;
    }
    text_length(listing)
}

// One byte more than a plan file may have, so that 38 is seen.
fn main() {
    let mut plan = [0u8; 16385];
    let length = io::read_full(STDIN_FILENO, &mut plan);
    let mut listing = [0u8; 35194];
    let printed = rehearse(&plan[..length], &mut listing);
    io::write_all(STDOUT_FILENO, &listing[..printed]);
}
