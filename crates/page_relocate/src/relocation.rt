// Relocate but for the record's bytes: room is made, and the header and the slot's entry are written.
// That the page's slot is in use stays a clause of each function: no type keeps a fact beside a `&mut`.
ghost use Rattle.std.specs.Prelude.{◌≡◌, true, ◌+◌, ◌-◌, ◌*◌, ◌≤◌, ◌<◌, ◌^◌, length};
ghost use Rattle.store.specs.Numbers.{put};
ghost use Rattle.store.specs.Slots.{slot_bytes, placed, is_record, len};
ghost use Rattle.store.specs.Page.{view};
ghost use Rattle.store.specs.Answers.{given_place, allotted};
ghost use Rattle.store.specs.PageSteps.{run, make_room, resized, relocate};
ghost use Rattle.store.specs.Laws.Slots.{Codable};
ghost use Rattle.store.specs.Laws.Lent.{UsedSlot};
ghost use Rattle.layout.specs.Run.{head_of};
ghost use Rattle.page_places.specs.Words.{unfilled, page_bare, Inside};
ghost use Rattle.page_relocate.specs.Words.{under_page, shrink_plan, home_of, alloc_of};

use layout::header::Header;
use store::{Page, Place, Slot};

// The record at another place, of the same kind.
fn placed_slot(s: Slot, offset: usize, length: usize) -> Slot
    requires { (offset < 2 ^ 30) × (length < 2 ^ 32) }
    ensures { (result ≡ placed s offset length) × Codable result }
{
    match s {
        Slot::Free => Slot::Free,
        Slot::Ordinary { .. } | Slot::Redirect { .. } => Slot::Ordinary { offset, length },
        Slot::Target { .. } => Slot::Target { offset, length },
    }
}

// The header and slot k's entry.
fn commit(page: &mut Page, k: usize, s: Slot, h: Header)
    requires { (20 + 8 * k ≤ length page.old) × Codable s }
    ensures { page.new ≡ put (put page.old 0 (head_of h.count h.first h.start h.space)) (12 + 8 * k) (slot_bytes s) }
{
    h.write(page);
    layout::slots::write_slot(page, k, s);
}

// Room is made, and slot k is a record of kind s just under data start; its place. Its bytes are still to be written.
fn put_under(page: &mut Page, k: usize, s: Slot, size: usize) -> usize
    requires used_slot { UsedSlot page.old k }
    requires size_bound { size ≤ (view page.old).free_space }
    ensures { (page.new ≡ under_page (view page.old) k s size page.old)
        × (result ≡ (make_room (view page.old) size).after.data_start - size) × (result + size ≤ 16384) }
{
    let h = Header::of(page);
    let d = page_compactify::room::make_room(page, size) - size;
    let placed = Header {
        start: d,
        space: h.space - size,
        ..h
    };
    commit(page, k, placed_slot(s, d, size), placed);
    d
}

// "Smaller: the length only, and the offset stays."
fn shrink(page: &mut Page, k: usize, s: Slot, size: usize)
    requires used_slot { UsedSlot page.old k }
    requires s_value { (s ≡ (view page.old).at k) × (is_record s ≡ true) × (size < len s) }
    ensures { page.new ≡ run (unfilled (shrink_plan (view page.old) k size).edits) page.old }
{
    let h = Header::of(page);
    let shrunk = Header {
        space: h.space + (s.len() - size),
        ..h
    };
    commit(page, k, placed_slot(s, s.offset(), size), shrunk);
}

// Slot k is a redirect to 0 while its record of len bytes has no place.
fn park(page: &mut Page, k: usize, len: usize)
    requires used_slot { UsedSlot page.old k }
    requires len_bound { len ≤ 16384 }
    ensures { page.new
        ≡ put (put page.old 0 (head_of (view page.old).slot_count (view page.old).first_free
        (view page.old).data_start ((view page.old).free_space + len))) (12 + 8 * k) (slot_bytes (Slot.Redirect 0)) }
{
    let h = Header::of(page);
    let parked = Header {
        space: h.space + len,
        ..h
    };
    commit(page, k, Slot::Redirect { id: 0 }, parked);
}

// Slot k's record s gets room for `size` bytes; its place.
fn resize_slot(page: &mut Page, k: usize, s: Slot, size: usize) -> Option<Place>
    requires used_slot { UsedSlot page.old k }
    requires s_value { (s ≡ (view page.old).at k) × (is_record s ≡ true) }
    ensures { (page.new ≡ page_bare (alloc_of k (resized (view page.old) k size)) page.old)
        × (given_place result ≡ allotted (alloc_of k (resized (view page.old) k size))) × Inside result size }
{
    let n = s.len();
    let offset = s.offset();
    if size == n {
        return Some(Place { slot: k, offset });
    }
    if size < n {
        shrink(page, k, s, size);
        return Some(Place { slot: k, offset });
    }
    let room = layout::header::get_free_space(page);
    if room < size - n {
        return None;
    }
    park(page, k, n);
    let d = put_under(page, k, s, size);
    Some(Place { slot: k, offset: d })
}

// Slot k, a redirect, gets a record of `size` bytes; its place.
fn home_slot(page: &mut Page, k: usize, size: usize) -> Option<Place>
    requires { UsedSlot page.old k }
    ensures { (page.new ≡ page_bare (alloc_of k (home_of (view page.old) k size)) page.old)
        × (given_place result ≡ allotted (alloc_of k (home_of (view page.old) k size))) × Inside result size }
{
    let room = layout::header::get_free_space(page);
    if room < size {
        return None;
    }
    let home = Slot::Ordinary {
        offset: 0,
        length: 0,
    };
    let d = put_under(page, k, home, size);
    Some(Place { slot: k, offset: d })
}

// Relocate but for the record's bytes; the record's place.
pub fn move_slot(page: &mut Page, k: usize, size: usize) -> Option<Place>
    requires { UsedSlot page.old k }
    ensures { (page.new ≡ page_bare (alloc_of k (relocate (view page.old) k size)) page.old)
        × (given_place result ≡ allotted (alloc_of k (relocate (view page.old) k size))) × Inside result size }
{
    let s = layout::slots::get_slot(page, k);
    if s.is_free() {
        return None;
    }
    if s.is_record() {
        return resize_slot(page, k, s, size);
    }
    home_slot(page, k, size)
}
