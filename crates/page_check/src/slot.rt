// One slot's record, as the check of a page sees it.
ghost use Rattle.std.specs.Prelude.{◌+◌, ◌*◌, ◌^◌, ◌≤◌, ◌<◌};
ghost use Rattle.store.specs.Slots.{slot_of};
ghost use Rattle.store.specs.Page.{view};
ghost use Rattle.page_check.specs.Fit.{Found};

use layout::slots::{FREE, REDIRECT, TARGET};
use store::{BACK, ENTRY, HEADER, Page, Part};

// The bytes of the record of slot k, if the slot may stand where it is and its record ends at or below `low`; f is the first free slot.
// It is told by the entry's two halves. The first half, with the kind in its top two bits, is small for an ordinary record alone: the
// first test passes for no other kind, and it is the only one that such a record needs: so the kinds are told here, in order, and not by
// a Slot, which would take two instructions more for each.
fn run_of(o: usize, l: usize, k: usize, f: usize, low: usize) -> Option<Part>
    requires { (o < 4294967296) × (l < 4294967296) × (low ≤ 16384) }
    ensures { Found (slot_of (o * 2 ^ 32 + l)) k f low result }
{
    if o + l <= low {
        return Some(Part {
            offset: o,
            length: l,
        });
    }
    if o < FREE {
        return None;
    }
    // A slot that takes no bytes leaves the lowest offset as it was.
    let no_bytes = Part {
        offset: low,
        length: 0,
    };
    if o < REDIRECT {
        return (f <= k).then_some(no_bytes);
    }
    if o < TARGET {
        return Some(no_bytes);
    }
    if l < BACK {
        return None;
    }
    let offset = o - TARGET;
    (offset + l <= low).then_some(Part { offset, length: l })
}

// The same, by the slot's entry on the page.
#[tactic(auto, using(crate::proofs::SlotLaws::found_at))]
pub fn run_at(page: &Page, k: usize, f: usize, low: usize) -> Option<Part>
    requires { (k < (view page.now).slot_count) × (k < 2046) × (low ≤ 16384) }
    ensures { Found ((view page.now).at k) k f low result }
{
    let at = HEADER + ENTRY * k;
    run_of(
        layout::get_u32(page, at),
        layout::get_u32(page, at + 4),
        k,
        f,
        low,
    )
}
