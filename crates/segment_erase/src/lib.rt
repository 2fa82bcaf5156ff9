// Erase: the record where it stands, or through a redirect the root's slot and its target.
// Segment and inventory stay two parameters, as C lends them, and what is known of them a clause: no type keeps a fact beside a `&mut`.
#![tactic(auto)]

ghost use Rattle.std.specs.Prelude.{◌≡◌};
ghost use Rattle.store.specs.Numbers.{page_no, slot_no};
ghost use Rattle.store.specs.Segment.{seg_view, result as result_of, erase_by, erase_step};
ghost use Rattle.store.specs.Answers.{outcome};
ghost use Rattle.store.specs.Laws.Lent.{TakenOn, RootIs};
ghost use Rattle.segment_steps.specs.Words.{Sizes};

use store::{IDS_A_PAGE, Refusal, Slot};

// The record of an ordinary slot, wherever it lies.
fn erase_ordinary(segment: &mut [u8], inventory: &mut [u8], id: usize) -> Result<usize, Refusal>
    requires sizes { Sizes segment.old inventory.old }
    requires taken_on { TakenOn segment.old (page_no id) (slot_no id) }
    ensures { outcome result segment.new inventory.new
        ≡ result_of segment.old (erase_by (seg_view segment.old) inventory.old id (Slot.Ordinary 0 0)) }
{
    let p = id / IDS_A_PAGE;
    segment_steps::erase_on(segment, p, id % IDS_A_PAGE);
    segment_steps::update_on(segment, inventory, p);
    Ok(id)
}

// A redirect to t and its target, of which the inventory is told first.
fn erase_forwarded(
    segment: &mut [u8],
    inventory: &mut [u8],
    id: usize,
    t: usize,
) -> Result<usize, Refusal>
    requires sizes { Sizes segment.old inventory.old }
    requires root_is { RootIs segment.old id (Slot.Redirect t) }
    ensures { outcome result segment.new inventory.new
        ≡ result_of segment.old (erase_by (seg_view segment.old) inventory.old id (Slot.Redirect t)) }
{
    if !segment_pages::points_back(segment, id, t) {
        return Err(Refusal::Damaged);
    }
    let p = id / IDS_A_PAGE;
    let q = t / IDS_A_PAGE;
    segment_steps::erase_on(segment, p, id % IDS_A_PAGE);
    segment_steps::erase_on(segment, q, t % IDS_A_PAGE);
    segment_steps::update_on(segment, inventory, q);
    segment_steps::update_on(segment, inventory, p);
    Ok(id)
}

// As the entry of the id's own slot says.
fn erase_slot(
    segment: &mut [u8],
    inventory: &mut [u8],
    id: usize,
    slot: Slot,
) -> Result<usize, Refusal>
    requires sizes { Sizes segment.old inventory.old }
    requires root_is { RootIs segment.old id slot }
    ensures { outcome result segment.new inventory.new
        ≡ result_of segment.old (erase_by (seg_view segment.old) inventory.old id slot) }
{
    match slot {
        Slot::Ordinary { .. } => erase_ordinary(segment, inventory, id),
        Slot::Free => Err(Refusal::NoRecord),
        Slot::Redirect { id: t } => erase_forwarded(segment, inventory, id, t),
        Slot::Target { .. } => Err(Refusal::Forwarded),
    }
}

pub fn erase_record(segment: &mut [u8], inventory: &mut [u8], id: usize) -> Result<usize, Refusal>
    ensures { outcome result segment.new inventory.new ≡ erase_step segment.old inventory.old id }
{
    if !segment_pages::sizes_ok(segment, inventory) {
        return Err(Refusal::Size);
    }
    let slot = segment_pages::root_of(segment, id)?;
    erase_slot(segment, inventory, id, slot)
}
