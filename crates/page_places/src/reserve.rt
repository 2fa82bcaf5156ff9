// Allocate but for the record's bytes: room is made, and the header and the slot's entry are written.
ghost use Rattle.std.specs.Prelude.{◌≡◌, cond, ◌+◌, ◌-◌, ◌*◌, ◌≤◌, ◌<◌, eqb, length};
ghost use Rattle.store.specs.Page.{view};
ghost use Rattle.store.specs.Answers.{given_place, allotted};
ghost use Rattle.store.specs.PageSteps.{next_free, allocate};
ghost use Rattle.store.specs.Laws.Lent.{UsedPage};
ghost use Rattle.page_places.specs.Words.{page_bare, Inside, PastEntry};

use layout::header::Header;
use store::{ENTRY, Page, Place, Slot};

// The lowest free slot from k on, or the count.
fn next_free(page: &Page, k: usize, c: usize) -> usize
    requires { (c ≡ (view page.now).slot_count) × (c ≤ 2046) × (k ≤ c + 1) }
    ensures { result ≡ next_free (c - k) (view page.now).at k }
{
    for i in k..c {
        if layout::slots::get_slot(page, i).is_free() {
            return i;
        }
    }
    c.max(k)
}

// The bytes for a new slot.
fn added_for(f: usize, c: usize) -> usize
    requires { f ≤ c }
    ensures { (result ≡ cond (eqb f c) 8 0) × (result ≤ 8) × (8 * f + 8 ≤ 8 * c + result) }
{
    if f == c { ENTRY } else { 0 }
}

// Allocate but for the record's bytes: room is made, and the header and the slot's entry are written.
pub fn reserve(page: &mut Page, size: usize) -> Option<Place>
    requires used_page { UsedPage page.old }
    requires size_bound { size ≤ 16384 }
    ensures { (page.new ≡ page_bare (allocate (view page.old) size) page.old)
        × (given_place result ≡ allotted (allocate (view page.old) size)) × Inside result size × PastEntry result }
{
    let header = Header::of(page);
    let slot = header.first;
    let more = added_for(slot, header.count);
    if header.space < size + more {
        return None;
    }
    let first = next_free(page, slot + 1, header.count);
    let offset = page_compactify::room::make_room(page, size + more) - size;
    Header {
        count: header.count + more / ENTRY,
        first,
        start: offset,
        space: header.space - (size + more),
    }
    .write(page);
    layout::slots::write_slot(
        page,
        slot,
        Slot::Ordinary {
            offset,
            length: size,
        },
    );
    Some(Place { slot, offset })
}
