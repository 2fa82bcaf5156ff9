// "go through the slots upward and free each whose record leaves the page, is a target under 8 bytes, or has positive length and reaches into
// the directory or overlaps a record already kept."
// A page and its count stay two parameters, as in mend.rt, where the page is lent to be written.
ghost use Rattle.std.specs.Prelude.{◌≡◌, ◌+◌, ◌≤◌, ◌<◌, true};
ghost use Rattle.store.specs.Slots.{is_record};
ghost use Rattle.store.specs.Page.{view};
ghost use Rattle.store.specs.Repair.{lies_in, keeps};
ghost use Rattle.store.specs.Laws.Slots.{Codable};
ghost use Rattle.page_repair.specs.Kept.{CountedPage, KeptMarks, judged, Judged};

use page_check::map::WORDS;
use store::{BACK, Deed, ENTRY, HEADER, MOST_SLOTS, PAGE_SIZE, Page, Slot};

// What is done to each slot that a page can have.
pub type Deeds = [Deed; MOST_SLOTS];

// Whether the record of an entry lies as it must on a page of c slots, whatever else lies there.
fn lies_in(c: usize, s: Slot) -> bool
    requires { (c ≤ 2046) × Codable s }
    ensures { result ≡ lies_in c s }
{
    let o = s.offset();
    let l = s.len();
    if PAGE_SIZE < o + l {
        return false;
    }
    if s.is_target() && l < BACK {
        return false;
    }
    if l == 0 {
        return true;
    }
    HEADER + ENTRY * c <= o
}

// What is done to slot k as far as its page tells: its record is freed, or it stays. A record that is kept is marked with its bytes.
fn judge_record(page: &Page, c: usize, k: usize, used: &mut [usize; WORDS]) -> Deed
    requires counted_page { CountedPage page.now c × (k < c) }
    requires kept_marks { KeptMarks (view page.now) k used.old }
    ensures { (result ≡ judged (view page.now) k) × KeptMarks (view page.now) (k + 1) used.new }
{
    let s = layout::slots::get_slot(page, k);
    if !s.is_record() {
        return Deed::Stays;
    }
    if !lies_in(c, s) {
        return Deed::RecordFreed;
    }
    let o = s.offset();
    let l = s.len();
    if l == 0 {
        return Deed::Stays;
    }
    if !crate::marks::is_clear(used, o, o + l) {
        return Deed::RecordFreed;
    }
    page_check::map::claim(used, o, o + l);
    Deed::Stays
}

// The same of the first n slots.
pub fn judge_records(page: &Page, n: usize, deeds: &mut Deeds)
    requires { CountedPage page.now (view page.now).slot_count × (n ≤ (view page.now).slot_count) }
    ensures { Judged (view page.now) n deeds.old deeds.new }
{
    let c = layout::header::get_slot_count(page);
    let mut used = [0; WORDS];
    for k in 0..n {
        deeds[k] = judge_record(page, c, k, &mut used);
    }
}

// Whether the record of slot k is kept. Never inlined: who asks it for few slots should not make room for its row for all.
#[inline(never)]
pub fn is_kept(page: &Page, k: usize) -> bool
    requires { CountedPage page.now (view page.now).slot_count × (k < (view page.now).slot_count) × (is_record ((view page.now).at k) ≡ true) }
    ensures { result ≡ keeps (view page.now) k }
{
    let mut deeds = [Deed::Stays; MOST_SLOTS];
    judge_records(page, k + 1, &mut deeds);
    deeds[k] == Deed::Stays
}
