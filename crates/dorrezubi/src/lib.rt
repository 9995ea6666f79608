// The rehearsal of a plan, as a host calls it. Crate dorrezubi_c exports it to C.

#![tactic(auto)]

ghost use Rattle.dorrezubi.specs.Exports.{Exports};

// "The same reading is exported to the C host over two byte slices, plan and listing."
#[tactic(auto, using(crate::proofs::Exporting::refused_is_unread))]
pub fn dorrezubi_run_plan(plan: &[u8], listing: &mut [u8]) -> u64
    ensures { Exports plan.now listing.old listing.new result }
{
    match plan_file::check_file(plan) {
        Ok(parts) => plan_rehearsal::rehearse(plan, parts, listing),
        Err(refusal) => u64::from(refusal),
    }
}
