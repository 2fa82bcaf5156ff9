// What one page counts for.
ghost use Rattle.std.specs.Prelude.{◌≡◌, ◌^◌, true};
ghost use Rattle.store.specs.Page.{view, sound};
ghost use Rattle.store.specs.PageSteps.{opened};
ghost use Rattle.store.specs.Laws.Lent.{UsedPage};
ghost use Rattle.store.specs.Answers.{numbers};
ghost use Rattle.fill_report.specs.Words.{AtMost, Room, WithSlot, SlotsTo, Fills};

use store::{BACK, Page, ROOM, Slot, Tally};

// Of some slots: their records, the bytes of these without back ids, and how many are targets.
#[derive(Clone, Copy, Default)]
struct Counts {
    records: u64,
    bytes: u64,
    forwarded: u64,
}

// One slot more. "a forwarded record is one target"
fn with_slot(c: Counts, s: Slot) -> Counts
    requires { Room c s }
    ensures { WithSlot c s result }
{
    match s {
        Slot::Ordinary { length, .. } => Counts {
            records: c.records + 1,
            bytes: c.bytes + length as u64,
            ..c
        },
        Slot::Free | Slot::Redirect { .. } => c,
        Slot::Target { length, .. } => Counts {
            records: c.records + 1,
            bytes: c.bytes + (length - BACK) as u64,
            forwarded: c.forwarded + 1,
        },
    }
}

// The n slots of a page in use.
fn count_slots(page: &Page, n: usize) -> Counts
    requires { UsedPage page.now × (n ≡ (view page.now).slot_count) }
    ensures { SlotsTo (view page.now) n result }
{
    let mut c = Counts::default();
    for k in 0..n {
        c = with_slot(c, layout::slots::get_slot(page, k));
    }
    c
}

// Adds what the page counts for. "Slots and free bytes count pages in use only": a fresh page, whatever its other bytes are, is of class 0
// and counts for nothing more.
#[tactic(auto, using(store::proofs::Laws::Classes::class_top))]
pub fn add_to(tally: &mut Tally, page: &Page)
    requires room { AtMost (2 ^ 63) (numbers tally.old) }
    requires whole { sound (view page.now) ≡ true }
    ensures { Fills (opened (view page.now)) tally.old tally.new }
{
    tally.pages += 1;
    if layout::header::is_fresh(page) {
        tally.fresh_pages += 1;
        tally.classes[0] += 1;
        return;
    }
    let n = layout::header::get_slot_count(page);
    let c = count_slots(page, n);
    let free = layout::header::get_free_space(page);
    tally.slots += n as u64;
    tally.records += c.records;
    tally.record_bytes += c.bytes;
    tally.forwarded += c.forwarded;
    tally.free_bytes += free as u64;
    tally.classes[free_space_inventory::class_of(ROOM - free)] += 1;
}
