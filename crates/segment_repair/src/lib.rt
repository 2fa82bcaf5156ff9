// Repair of a segment and its inventory: "After a crash .. I want what can be kept", with an entry for each slot, header and inventory that
// changed. All changes are counted before the first is written.
// Segment and inventory stay two parameters, as C lends them, and what is known of them a clause: no type keeps a fact beside a `&mut`.
#![tactic(auto)]

mod count;
mod state;
mod tell;
mod write;

ghost use Rattle.std.specs.Prelude.{◌≡◌};
ghost use Rattle.store.specs.Repair.{repair_step};
ghost use Rattle.store.specs.Answers.{repaired};

use segment_judge::Judge;
use store::{PAGE_SIZE, RepairRefusal};
use tell::What;

// "Refusals: 1, then 11 ROOM when the entry list is too short for all changes, nothing changed."
pub fn repair(
    segment: &mut [u8],
    inventory: &mut [u8],
    entries: &mut [u64],
) -> Result<usize, RepairRefusal>
    ensures { repaired result segment.new inventory.new entries.new
        ≡ repair_step segment.old inventory.old entries.old }
{
    if !segment_pages::sizes_ok(segment, inventory) {
        return Err(RepairRefusal::Size);
    }
    let sound = segment_judge::check_pages(segment);
    let mut after = [0; PAGE_SIZE];
    let mut count = crate::count::count_pages(&Judge::new(segment, &sound), &mut after);
    let same = crate::count::same_inventory(inventory.as_array().unwrap(), &after);
    if !same {
        count += 1;
    }
    if count == 0 {
        return Ok(0);
    }
    if entries.len() / 3 < count {
        return Err(RepairRefusal::Room { count });
    }
    let at = crate::write::write_pages(segment, &sound, entries);
    if !same {
        let n = segment.len() / PAGE_SIZE;
        tell::tell(entries, at, n, What::InventoryWorkedOut);
        inventory.copy_from_slice(&after);
    }
    Ok(count)
}
