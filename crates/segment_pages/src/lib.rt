// One page of the segment lent on from its middle, to be read: the sizes that document 01 asks for, and what is seen of a page.
#![tactic(auto)]

ghost use Rattle.std.specs.Prelude.{◌≡◌, ◌&&◌, not, ◌+◌, ◌*◌, ◌/◌, ◌≤◌, length, ltb, eqb};
ghost use Rattle.store.specs.Numbers.{cut, be, page_no};
ghost use Rattle.store.specs.Page.{view, sound};
ghost use Rattle.store.specs.Segment.{size_ok, inv_ok, page_of, seg_view, root_of, points_back};
ghost use Rattle.store.specs.Laws.Slots.{Codable};
ghost use Rattle.store.specs.Laws.Lent.{Within};

use store::{IDS_A_PAGE, MOST_PAGES, PAGE_SIZE, Page, Refusal, Slot};

// "A segment is a lent run of n whole pages, n from 0 to 32,527."
pub fn is_segment(segment: &[u8]) -> bool
    ensures { result ≡ size_ok segment.now }
{
    if segment.len() % PAGE_SIZE != 0 {
        return false;
    }
    segment.len() / PAGE_SIZE <= MOST_PAGES
}

// The same, and "The inventory is one lent page."
pub fn sizes_ok(segment: &[u8], inventory: &[u8]) -> bool
    ensures { result ≡ (size_ok segment.now && inv_ok inventory.now) }
{
    if !is_segment(segment) {
        return false;
    }
    inventory.len() == PAGE_SIZE
}

// Page p, to be read.
// That page p is there stays a clause: a type of page numbers would have to lend the segment that they are of, which steps write to.
pub fn page_of(segment: &[u8], p: usize) -> &Page
    requires { Within segment.now p }
    ensures { result.now ≡ page_of segment.now p }
{
    segment[p * PAGE_SIZE..(p + 1) * PAGE_SIZE]
        .as_array()
        .unwrap()
}

// Whether page p is sound; a fresh page is, as it stands and as it is seen.
pub fn page_sound(segment: &[u8], p: usize) -> bool
    requires { Within segment.now p }
    ensures { result ≡ sound ((seg_view segment.now).page p) }
{
    page_check::is_sound(page_of(segment, p))
}

// Slot k of a page whose count is at most 2,046. A slot at or past the count is free.
fn slot_of(page: &Page, k: usize) -> Slot
    requires { (view page.now).slot_count ≤ 2046 }
    ensures { (result ≡ (view page.now).at k) × Codable result }
{
    if layout::header::get_slot_count(page) <= k {
        return Slot::Free;
    }
    layout::slots::get_slot(page, k)
}

// Slot k of page p.
pub fn slot_on(segment: &[u8], p: usize, k: usize) -> Slot
    requires within { Within segment.now p }
    requires p_bound { ((seg_view segment.now).page p).slot_count ≤ 2046 }
    ensures { (result ≡ ((seg_view segment.now).page p).at k) × Codable result }
{
    slot_of(page_of(segment, p), k)
}

// The own page of an id: 2, then 4 (root), and then the entry of its slot.
pub fn root_of(segment: &[u8], id: usize) -> Result<Slot, Refusal>
    ensures { result ≡ root_of (seg_view segment.now) id }
{
    let p = id / IDS_A_PAGE;
    if segment.len() / PAGE_SIZE <= p {
        return Err(Refusal::NoPage);
    }
    if !page_sound(segment, p) {
        return Err(Refusal::Damaged);
    }
    Ok(slot_on(segment, p, id % IDS_A_PAGE))
}

// "A target's record begins with 8 bytes, the big-endian id of its root": of the record at this offset of page p.
pub fn back_id_on(segment: &[u8], p: usize, offset: usize) -> usize
    requires within { Within segment.now p }
    requires offset_bound { offset + 8 ≤ 16384 }
    ensures { result ≡ be (cut segment.now (p * 16384 + offset) 8) }
{
    layout::get_u64(segment, p * PAGE_SIZE + offset)
}

// Whether the page of id t is there, and another than that of id i.
pub fn elsewhere(segment: &[u8], i: usize, t: usize) -> bool
    ensures { result ≡ (ltb (page_no t) (length segment.now / 16384) && not (eqb (page_no t) (page_no i))) }
{
    let p = t / IDS_A_PAGE;
    p < segment.len() / PAGE_SIZE && p != i / IDS_A_PAGE
}

// Whether t is a target's id, on another page than i's, "pointing back" to i, and that page is sound.
pub fn points_back(segment: &[u8], i: usize, t: usize) -> bool
    ensures { result ≡ points_back (seg_view segment.now) i t }
{
    let p = t / IDS_A_PAGE;
    if !elsewhere(segment, i, t) {
        return false;
    }
    if !page_sound(segment, p) {
        return false;
    }
    let Slot::Target { offset, .. } = slot_on(segment, p, t % IDS_A_PAGE) else {
        return false;
    };
    back_id_on(segment, p, offset) == i
}
