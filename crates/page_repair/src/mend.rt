// A page in use, once it is settled what is done to each slot: its header's numbers "worked out anew", and the slots that change written.
ghost use Rattle.std.specs.Prelude.{◌≡◌, cond, not, ◌&&◌, ◌+◌, ◌*◌, ◌^◌, ◌≤◌, ◌<◌, min, eqb, leb};
ghost use Rattle.store.specs.Slots.{off, len, is_free};
ghost use Rattle.store.specs.Page.{view};
ghost use Rattle.store.specs.Repair.{changes, slot_done, mended_by, same_head, put_slots, put_mended};
ghost use Rattle.store.specs.Laws.Slots.{Codable};
ghost use Rattle.page_repair.specs.Kept.{CountedPage};
ghost use Rattle.page_repair.specs.Mended.{CodableBy, Gathered, gathered, head_after};

use crate::plan::Plan;
use layout::header::{Header, get_data_start};
use layout::slots::get_slot;
use store::{BACK, Deed, ENTRY, HEADER, PAGE_SIZE, Page, ROOM, Slot};

// How many slots change; of the slots afterwards the first free one, the lowest offset of a record of positive length, and the lengths' sum.
#[derive(Clone, Copy)]
pub struct Numbers {
    pub changes: usize,
    pub first: usize,
    pub low: usize,
    pub total: usize,
}

impl Numbers {
    // With one slot more, the k-th, whose entry becomes s by the deed d.
    fn with(self, k: usize, d: Deed, s: Slot) -> Numbers
        requires { (k < 2046) × (self.changes ≤ k) × (self.total ≤ k * 2 ^ 32) × (len s < 2 ^ 32) }
        ensures { result ≡ gathered self k d s }
    {
        Numbers {
            changes: changes_with(self.changes, d),
            first: first_with(self.first, k, s),
            low: low_with(self.low, s),
            total: self.total + s.len(),
        }
    }
}

// An entry after what is done to it: "a target .. becomes an ordinary record without its 8 bytes".
fn slot_done(d: Deed, s: Slot) -> Slot
    requires { Codable s }
    ensures { result ≡ slot_done d s }
{
    match d {
        Deed::Stays => s,
        Deed::RecordFreed | Deed::RedirectFreed => Slot::Free,
        Deed::MadeOrdinary => Slot::Ordinary {
            offset: s.offset() + BACK,
            length: s.len().saturating_sub(BACK),
        },
    }
}

fn changes_with(so_far: usize, d: Deed) -> usize
    requires { so_far < 2046 }
    ensures { result ≡ cond (changes d) (so_far + 1) so_far }
{
    if d == Deed::Stays { so_far } else { so_far + 1 }
}

fn first_with(first: usize, k: usize, s: Slot) -> usize
    requires { k < 2046 }
    ensures { result ≡ cond (eqb first k && not (is_free s)) (k + 1) first }
{
    if first == k && !s.is_free() {
        k + 1
    } else {
        first
    }
}

// A record of no bytes has no lowest offset: this is no plain min.
fn low_with(low: usize, s: Slot) -> usize
    ensures { result ≡ cond (eqb (len s) 0) low (min (off s) low) }
{
    if s.len() == 0 {
        low
    } else {
        low.min(s.offset())
    }
}

// The slots as they become, gathered. A page and its count, n, stay two parameters: `mend` is lent its page to be written, and no fact can be
// kept in a type beside that.
pub fn gather<D: Plan>(page: &Page, n: usize, deeds: &D) -> Numbers
    requires { CountedPage page.now n × CodableBy (D.deeds deeds.now) (view page.now) }
    ensures { Gathered (D.deeds deeds.now) (view page.now) n result × (result.total ≤ n * 2 ^ 32) × (result.changes ≤ n) }
{
    let mut r = Numbers {
        changes: 0,
        first: 0,
        low: PAGE_SIZE,
        total: 0,
    };
    for k in 0..n {
        let d = deeds.deed(k);
        let s = slot_done(d, get_slot(page, k));
        r = r.with(k, d, s);
    }
    r
}

// "data start as the lowest offset of a record of positive length", where it is below the directory's end or above that offset.
fn start_with(d: usize, dir: usize, low: usize) -> usize
    ensures { result ≡ cond (leb dir d && leb d low) d low }
{
    if dir <= d && d <= low { d } else { low }
}

// "Header numbers that break the sound-page rule are worked out anew".
pub fn header_after(page: &Page, n: usize, r: Numbers) -> Header
    requires { CountedPage page.now n × (r.total ≤ n * 2 ^ 32) }
    ensures { result ≡ head_after (view page.now) r }
{
    let d = get_data_start(page);
    Header {
        count: n,
        first: r.first,
        start: start_with(d, HEADER + ENTRY * n, r.low),
        space: ROOM.saturating_sub(ENTRY * n + r.total),
    }
}

// The slots that change, of the first n, written.
fn write_slots<D: Plan>(page: &mut Page, n: usize, deeds: &D)
    requires { CountedPage page.old n × CodableBy (D.deeds deeds.now) (view page.old) }
    ensures { page.new ≡ put_slots (D.deeds deeds.now) (view page.old) n page.old }
{
    for k in 0..n {
        let d = deeds.deed(k);
        if d != Deed::Stays {
            let s = slot_done(d, get_slot(page, k));
            layout::slots::write_slot(page, k, s);
        }
    }
}

// The page of n slots mended, and whether its header was written.
pub fn mend<D: Plan>(page: &mut Page, n: usize, deeds: &D) -> bool
    requires { CountedPage page.old n × CodableBy (D.deeds deeds.now) (view page.old) }
    ensures { (page.new ≡ put_mended (D.deeds deeds.now) (view page.old) page.old)
        × (result ≡ not (same_head (view page.old) (mended_by (D.deeds deeds.now) (view page.old)))) }
{
    let r = gather(page, n, deeds);
    let h = header_after(page, n, r);
    let before = Header::of(page);
    write_slots(page, n, deeds);
    if before == h {
        return false;
    }
    h.write(page);
    true
}
