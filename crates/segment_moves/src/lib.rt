// One page of the segment lent on from its middle, to be written by write and resize: a record of page p at another size, and a root that
// becomes a redirect. Allocate and erase: segment_steps, which says why each step splits the segment itself.
// That the slot is taken stays a clause of each function: no type keeps a fact beside a `&mut`.
#![tactic(auto)]

ghost use Rattle.std.specs.Prelude.{◌≡◌, ◌++◌, ◌+◌, ◌≤◌, ◌<◌, ◌^◌, length, drop};
ghost use Rattle.store.specs.Numbers.{to_be, fit};
ghost use Rattle.store.specs.PageSteps.{erase_for_redirect, relocate};
ghost use Rattle.store.specs.Laws.Lent.{TakenOn};
ghost use Rattle.store.specs.Segment.{on, carried_on};
ghost use Rattle.slotted_page.specs.Words.{redirect_plan};
ghost use Rattle.page_relocate.specs.Words.{was_moved, refilled};
ghost use Rattle.segment_steps.specs.Words.{seen};
ghost use Rattle.segment_moves.specs.Words.{relocated_on};

use store::PAGE_SIZE;

// Slot k's record, of page p, becomes these bytes, cut off or filled up with zeros to `size`; from a redirect too. A refusal changes nothing.
pub fn rewrite_on(segment: &mut [u8], p: usize, k: usize, bytes: &[u8], size: usize) -> bool
    requires { TakenOn segment.old p k }
    ensures { (segment.new
        ≡ relocated_on segment.old p (refilled (relocate (seen segment.old p) k size) k (fit size bytes.now)))
        × (result ≡ was_moved (relocate (seen segment.old p) k size)) }
{
    let rest = segment.split_at_mut(p * PAGE_SIZE).1;
    page_relocate::record::rewrite(rest.first_chunk_mut().unwrap(), k, bytes, size)
}

// Slot k's record keeps its bytes, cut off or filled up with zeros to `size`.
pub fn resize_on(segment: &mut [u8], p: usize, k: usize, size: usize) -> bool
    requires { TakenOn segment.old p k }
    ensures { (segment.new
        ≡ relocated_on segment.old p
        (refilled (relocate (seen segment.old p) k size) k (fit size ((seen segment.old p).bytes k))))
        × (result ≡ was_moved (relocate (seen segment.old p) k size)) }
{
    let rest = segment.split_at_mut(p * PAGE_SIZE).1;
    page_relocate::record::resize(rest.first_chunk_mut().unwrap(), k, size)
}

// A target's record becomes the id of its root and these bytes.
pub fn rewrite_target_on(segment: &mut [u8], p: usize, k: usize, id: usize, bytes: &[u8]) -> bool
    requires taken_on { TakenOn segment.old p k }
    requires bytes_len_bound { length bytes.now ≤ 16364 }
    ensures { (segment.new
        ≡ relocated_on segment.old p
        (refilled (relocate (seen segment.old p) k (length bytes.now + 8)) k (to_be 8 id ++ bytes.now)))
        × (result ≡ was_moved (relocate (seen segment.old p) k (length bytes.now + 8))) }
{
    let rest = segment.split_at_mut(p * PAGE_SIZE).1;
    page_relocate::record::rewrite_target(rest.first_chunk_mut().unwrap(), k, id, bytes)
}

// A target's record keeps its bytes behind the id of its root.
pub fn resize_target_on(segment: &mut [u8], p: usize, k: usize, id: usize, size: usize) -> bool
    requires taken_on { TakenOn segment.old p k }
    requires size_bound { size ≤ 16364 }
    ensures { (segment.new
        ≡ relocated_on segment.old p
        (refilled (relocate (seen segment.old p) k (size + 8)) k
        (to_be 8 id ++ fit size (drop 8 ((seen segment.old p).bytes k)))))
        × (result ≡ was_moved (relocate (seen segment.old p) k (size + 8))) }
{
    let rest = segment.split_at_mut(p * PAGE_SIZE).1;
    page_relocate::record::resize_target(rest.first_chunk_mut().unwrap(), k, id, size)
}

// Slot k of page p, which is not free, becomes a redirect to the id.
pub fn erase_for_redirect_on(segment: &mut [u8], p: usize, k: usize, id: usize)
    requires taken_on { TakenOn segment.old p k }
    requires id_bound { id < 2 ^ 62 }
    ensures { segment.new ≡ carried_on (on p (erase_for_redirect (seen segment.old p) k id)) segment.old }
{
    let rest = segment.split_at_mut(p * PAGE_SIZE).1;
    slotted_page::erase::erase_for_redirect(rest.first_chunk_mut().unwrap(), k, id);
}

// Slot k of page p, a redirect already, names this id: its entry alone.
pub fn set_redirect_on(segment: &mut [u8], p: usize, k: usize, id: usize)
    requires taken_on { TakenOn segment.old p k }
    requires id_bound { id < 2 ^ 62 }
    ensures { segment.new ≡ carried_on (on p (redirect_plan (seen segment.old p) k id)) segment.old }
{
    let rest = segment.split_at_mut(p * PAGE_SIZE).1;
    slotted_page::erase::set_redirect(rest.first_chunk_mut().unwrap(), k, id);
}
