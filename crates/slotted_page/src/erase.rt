// Erase, and erase for a redirect.
// That the page's slot is in use stays a clause of each function: no type keeps a fact beside a `&mut`.
ghost use Rattle.std.specs.Prelude.{◌≡◌, cond, ◌+◌, ◌*◌, ◌≤◌, ◌<◌, ◌^◌, min, eqb, length};
ghost use Rattle.store.specs.Numbers.{put};
ghost use Rattle.store.specs.Slots.{len, slot_bytes};
ghost use Rattle.store.specs.Page.{view};
ghost use Rattle.store.specs.PageSteps.{free_below, pruned, start_without, erase_for_redirect, run, erase};
ghost use Rattle.store.specs.Laws.Slots.{Codable};
ghost use Rattle.store.specs.Laws.Lent.{UsedSlot};
ghost use Rattle.layout.specs.Run.{head_of};
ghost use Rattle.slotted_page.specs.Words.{redirect_plan};

use layout::header::Header;
use store::{Page, Slot};

// Data start once the record at o of n bytes is gone.
fn start_without(o: usize, n: usize, d: usize) -> usize
    requires { (d ≤ 16384) × (n ≤ 16384) }
    ensures { result ≡ cond (eqb o d) (d + n) d }
{
    if o == d { d + n } else { d }
}

// How many slots just below k are free.
fn free_below(page: &Page, k: usize) -> usize
    requires { (k ≤ (view page.now).slot_count) × (k ≤ 2046) }
    ensures { (result ≡ free_below (view page.now).at k) × (result ≤ k) }
{
    for j in (0..k).rev() {
        if !layout::slots::get_slot(page, j).is_free() {
            return k - (j + 1);
        }
    }
    k
}

fn pruned_by(page: &Page, k: usize, c: usize) -> usize
    requires { (c ≡ (view page.now).slot_count) × (k < c) × (c ≤ 2046) }
    ensures { (result ≡ pruned (view page.now) k) × (result ≤ k) }
{
    if k + 1 == c { free_below(page, k) } else { 0 }
}

// Slot k's record goes, and its entry becomes `left`. The header becomes h, with the record's bytes given back.
fn drop_record(page: &mut Page, k: usize, left: Slot, h: Header)
    requires used_slot { UsedSlot page.old k }
    requires left_codable { Codable left }
    requires header { (h.start ≡ (view page.old).data_start) × (h.space ≤ 65536) }
    ensures { page.new ≡ put (put page.old 0 (head_of h.count h.first (start_without (view page.old) k)
        (h.space + len ((view page.old).at k)))) (12 + 8 * k) (slot_bytes left) }
{
    let s = layout::slots::get_slot(page, k);
    let len = s.len();
    Header {
        start: start_without(s.offset(), len, h.start),
        space: h.space + len,
        ..h
    }
    .write(page);
    layout::slots::write_slot(page, k, left);
}

pub fn erase(page: &mut Page, k: usize)
    requires { UsedSlot page.old k }
    ensures { page.new ≡ run (erase (view page.old) k).edits page.old }
{
    let h = Header::of(page);
    let m = pruned_by(page, k, h.count);
    let pruned = Header {
        count: h.count - m,
        first: h.first.min(k),
        space: h.space + 8 * m,
        ..h
    };
    drop_record(page, k, Slot::Free, pruned);
}

pub fn erase_for_redirect(page: &mut Page, k: usize, id: usize)
    requires used_slot { UsedSlot page.old k }
    requires id_bound { id < 2 ^ 62 }
    ensures { page.new ≡ run (erase_for_redirect (view page.old) k id).edits page.old }
{
    drop_record(page, k, Slot::Redirect { id }, Header::of(page));
}

// "With the root as redirect", where the root is a redirect already: its entry alone.
pub fn set_redirect(page: &mut Page, k: usize, id: usize)
    requires { (20 + 8 * k ≤ length page.old) × (id < 2 ^ 62) }
    ensures { page.new ≡ run (redirect_plan (view page.old) k id).edits page.old }
{
    layout::slots::write_slot(page, k, Slot::Redirect { id });
}
