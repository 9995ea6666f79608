// What a host in C links: include/dorrezubi.h.

#![tactic(auto)]

ghost use Rattle.dorrezubi.specs.Exports.{Exports};

// "The same reading is exported to the C host over two byte slices, plan and listing."
#[unsafe(no_mangle)]
pub extern "C" fn dorrezubi_run_plan(plan: &[u8], listing: &mut [u8]) -> u64
    ensures { Exports plan.now listing.old listing.new result }
{
    dorrezubi::dorrezubi_run_plan(plan, listing)
}
