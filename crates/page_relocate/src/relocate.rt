// Relocate: the record's place, and its old bytes there.
// That the page's slot is in use stays a clause of each function: no type keeps a fact beside a `&mut`.
ghost use Rattle.std.specs.Prelude.{◌≡◌, ◌+◌, ◌≤◌, ◌<◌};
ghost use Rattle.store.specs.Slots.{len};
ghost use Rattle.store.specs.Page.{view};
ghost use Rattle.store.specs.PageSteps.{gap, relocate};
ghost use Rattle.store.specs.Laws.Lent.{UsedSlot};
ghost use Rattle.page_relocate.specs.Words.{page_moved, was_moved};

use layout::header::Header;
use store::{PAGE_SIZE, Page, Place, Slot};

// Relocate to a larger size, where the page is compactified: "the growing record's old bytes are saved by value".
fn grow_packed(page: &mut Page, k: usize, s: Slot, size: usize) -> bool
    requires used_slot { UsedSlot page.old k }
    requires s_value { s ≡ (view page.old).at k }
    ensures { (page.new ≡ page_moved (relocate (view page.old) k size) page.old)
        × (result ≡ was_moved (relocate (view page.old) k size)) }
{
    let n = s.len();
    let mut saved = [0u8; PAGE_SIZE];
    layout_runs::save(page, s.offset(), n, &mut saved);
    crate::record::rewrite(page, k, &saved[..n], size)
}

// Relocate to a larger size, where the gap holds it: the old bytes stand where they stood.
fn grow(page: &mut Page, k: usize, s: Slot, size: usize) -> bool
    requires used_slot { UsedSlot page.old k }
    requires s_value { (s ≡ (view page.old).at k) × (len s ≤ size) × (size ≤ gap (view page.old)) }
    ensures { (page.new ≡ page_moved (relocate (view page.old) k size) page.old)
        × (result ≡ was_moved (relocate (view page.old) k size)) }
{
    let n = s.len();
    let Some(Place { offset, .. }) = crate::relocation::move_slot(page, k, size) else {
        return false;
    };
    layout_runs::move_within(page, s.offset(), n, offset);
    layout_runs::zero_fill(page, offset + n, size - n);
    true
}

// Relocate to a size that is not larger: the old bytes stay where they stand.
fn settle(page: &mut Page, k: usize, size: usize) -> bool
    requires used_slot { UsedSlot page.old k }
    requires size_bound { size ≤ len ((view page.old).at k) }
    ensures { (page.new ≡ page_moved (relocate (view page.old) k size) page.old)
        × (result ≡ was_moved (relocate (view page.old) k size)) }
{
    crate::relocation::move_slot(page, k, size).is_some()
}

// "Larger: refused if growth exceeds free space": before any byte is saved.
pub fn relocate(page: &mut Page, k: usize, size: usize) -> bool
    requires { UsedSlot page.old k }
    ensures { (page.new ≡ page_moved (relocate (view page.old) k size) page.old)
        × (result ≡ was_moved (relocate (view page.old) k size)) }
{
    let s = layout::slots::get_slot(page, k);
    let n = s.len();
    if size <= n {
        return settle(page, k, size);
    }
    let header = Header::of(page);
    if header.space < size - n {
        return false;
    }
    if header.gap() < size {
        return grow_packed(page, k, s, size);
    }
    grow(page, k, s, size)
}
