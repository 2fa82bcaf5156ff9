// Write and resize: the root's page first, then a redirect's target, then a new target on another page. What the two differ in: change.rt.
// Segment and inventory stay two parameters, as C lends them, and what is known of them a clause: no type keeps a fact beside a `&mut`.
#![tactic(auto)]

mod change;
pub mod resize;
pub mod write;

ghost use Rattle.std.specs.Prelude.{◌≡◌, false, ◌≤◌};
ghost use Rattle.store.specs.Numbers.{page_no, slot_no};
ghost use Rattle.store.specs.Slots.{is_target};
ghost use Rattle.store.specs.Inventory.{found_in};
ghost use Rattle.store.specs.Segment.{seg_view, result as result_of, store_by, store_plan, step};
ghost use Rattle.store.specs.Answers.{outcome};
ghost use Rattle.store.specs.Laws.Lent.{TakenOn, RootIs};
ghost use Rattle.segment_steps.specs.Words.{Sizes, seen};

use change::Change;
use store::{IDS_A_PAGE, LONGEST, Refusal, Slot};

// The record of an ordinary slot, wherever it lies: "the root page first", then a new target.
fn store_ordinary<C: Change>(
    segment: &mut [u8],
    inventory: &mut [u8],
    id: usize,
    change: &C,
) -> Result<usize, Refusal>
    requires sizes { Sizes segment.old inventory.old }
    requires taken_on { TakenOn segment.old (page_no id) (slot_no id) }
    requires id_value { (is_target ((seen segment.old (page_no id)).at (slot_no id)) ≡ false) × (C.sized change.now ≤ 16364) }
    ensures { outcome result segment.new inventory.new
        ≡ result_of segment.old
        (store_by found_in (seg_view segment.old) inventory.old id (C.sized change.now) (C.made change.now)
        (Slot.Ordinary 0 0)) }
{
    if change.on_page(segment, id / IDS_A_PAGE, id % IDS_A_PAGE) {
        segment_steps::update_on(segment, inventory, id / IDS_A_PAGE);
        return Ok(id);
    }
    change.forward(segment, inventory, id)
}

// The record of the target that a redirect names: home, else at the target, else at a new one.
fn store_forwarded<C: Change>(
    segment: &mut [u8],
    inventory: &mut [u8],
    id: usize,
    t: usize,
    change: &C,
) -> Result<usize, Refusal>
    requires sizes { Sizes segment.old inventory.old }
    requires root_is { RootIs segment.old id (Slot.Redirect t) }
    requires size_bound { C.sized change.now ≤ 16364 }
    ensures { outcome result segment.new inventory.new
        ≡ result_of segment.old
        (store_by found_in (seg_view segment.old) inventory.old id (C.sized change.now) (C.made change.now)
        (Slot.Redirect t)) }
{
    if !segment_pages::points_back(segment, id, t) {
        return Err(Refusal::Damaged);
    }
    if segment_forward::fits_home(segment, id, change.size()) {
        return change.go_home(segment, inventory, id, t);
    }
    if change.on_target(segment, t / IDS_A_PAGE, t % IDS_A_PAGE, id) {
        segment_steps::update_on(segment, inventory, t / IDS_A_PAGE);
        return Ok(id);
    }
    change.forward_again(segment, inventory, id, t)
}

// By the entry of the id's own slot: 5, 6, or the record.
fn store_slot<C: Change>(
    segment: &mut [u8],
    inventory: &mut [u8],
    id: usize,
    slot: Slot,
    change: &C,
) -> Result<usize, Refusal>
    requires sizes { Sizes segment.old inventory.old }
    requires root_is { RootIs segment.old id slot }
    requires size_bound { C.sized change.now ≤ 16364 }
    ensures { outcome result segment.new inventory.new
        ≡ result_of segment.old
        (store_by found_in (seg_view segment.old) inventory.old id (C.sized change.now) (C.made change.now)
        slot) }
{
    match slot {
        Slot::Ordinary { .. } => store_ordinary(segment, inventory, id, change),
        Slot::Free => Err(Refusal::NoRecord),
        Slot::Redirect { id: t } => store_forwarded(segment, inventory, id, t, change),
        Slot::Target { .. } => Err(Refusal::Forwarded),
    }
}

// Refusals in order: 1, 3, 2, 4 (root), then by the slot.
fn store_record<C: Change>(
    segment: &mut [u8],
    inventory: &mut [u8],
    id: usize,
    change: &C,
) -> Result<usize, Refusal>
    ensures { outcome result segment.new inventory.new
        ≡ step segment.old inventory.old
        (store_plan found_in (seg_view segment.old) inventory.old id (C.sized change.now) (C.made change.now)) }
{
    if !segment_pages::sizes_ok(segment, inventory) {
        return Err(Refusal::Size);
    }
    if LONGEST < change.size() {
        return Err(Refusal::Long);
    }
    let slot = segment_pages::root_of(segment, id)?;
    store_slot(segment, inventory, id, slot, change)
}
