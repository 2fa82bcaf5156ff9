// The record of a slot at another size, and its bytes. Write passes the new bytes; resize keeps the old ones, cut off or filled up with zeros.
// Each is the move and then one write: with the write as a closure, its contract would be longer than both.
// That the page's slot is in use stays a clause of each function: no type keeps a fact beside a `&mut`.
ghost use Rattle.std.specs.Prelude.{◌≡◌, ◌++◌, ◌+◌, ◌≤◌, length, drop};
ghost use Rattle.store.specs.Numbers.{to_be, fit};
ghost use Rattle.store.specs.Page.{view};
ghost use Rattle.store.specs.PageSteps.{relocate};
ghost use Rattle.store.specs.Laws.Lent.{UsedSlot};
ghost use Rattle.page_relocate.specs.Words.{page_moved, was_moved, refilled};

use store::{Page, Place};

// Slot k's record becomes these bytes, cut off or filled up with zeros to `size`; from a redirect too.
pub fn rewrite(page: &mut Page, k: usize, bytes: &[u8], size: usize) -> bool
    requires { UsedSlot page.old k }
    ensures { (page.new ≡ page_moved (refilled (relocate (view page.old) k size) k (fit size bytes.now))
        page.old)
        × (result ≡ was_moved (relocate (view page.old) k size)) }
{
    let Some(Place { offset, .. }) = crate::relocation::move_slot(page, k, size) else {
        return false;
    };
    layout_runs::fit_in(page, offset, bytes, size);
    true
}

// Slot k's record keeps its bytes.
pub fn resize(page: &mut Page, k: usize, size: usize) -> bool
    requires { UsedSlot page.old k }
    ensures { (page.new
        ≡ page_moved (refilled (relocate (view page.old) k size) k (fit size ((view page.old).bytes k))) page.old)
        × (result ≡ was_moved (relocate (view page.old) k size)) }
{
    crate::relocate::relocate(page, k, size)
}

// A target's record becomes the id of its root and these bytes.
pub fn rewrite_target(page: &mut Page, k: usize, id: usize, bytes: &[u8]) -> bool
    requires used_slot { UsedSlot page.old k }
    requires bytes_len_bound { length bytes.now ≤ 16364 }
    ensures { (page.new
        ≡ page_moved (refilled (relocate (view page.old) k (length bytes.now + 8)) k (to_be 8 id ++ bytes.now))
        page.old)
        × (result ≡ was_moved (relocate (view page.old) k (length bytes.now + 8))) }
{
    let Some(Place { offset, .. }) = crate::relocation::move_slot(page, k, bytes.len() + 8) else {
        return false;
    };
    layout::put_u64(page, offset, id);
    layout_runs::copy_in(page, offset + 8, bytes);
    true
}

// A target's record keeps its bytes behind the id of its root.
pub fn resize_target(page: &mut Page, k: usize, id: usize, size: usize) -> bool
    requires used_slot { UsedSlot page.old k }
    requires size_bound { size ≤ 16364 }
    ensures { (page.new
        ≡ page_moved (refilled (relocate (view page.old) k (size + 8)) k
        (to_be 8 id ++ fit size (drop 8 ((view page.old).bytes k)))) page.old)
        × (result ≡ was_moved (relocate (view page.old) k (size + 8))) }
{
    if crate::relocate::relocate(page, k, size + 8) {
        let s = layout::slots::get_slot(page, k);
        layout::put_u64(page, s.offset(), id);
        return true;
    }
    false
}
