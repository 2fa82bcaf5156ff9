// "Last comes a new target of size + 8 on another page, with the root as redirect"; and "moving home frees the target".
// `bytes` and `size` go on as they are to page_relocate, which takes the two: a struct would be made here and taken apart in each call.
// Segment and inventory stay two parameters, as C lends them, and what is known of them a clause: no type keeps a fact beside a `&mut`.
#![tactic(auto)]

ghost use Rattle.std.specs.Prelude.{◌≡◌, ◌||◌, [], ◌+◌, ◌≤◌, eqb, leb};
ghost use Rattle.store.specs.Numbers.{fit, page_no, slot_no};
ghost use Rattle.store.specs.PageSteps.{relocate};
ghost use Rattle.store.specs.Inventory.{found_in};
ghost use Rattle.store.specs.Segment.{seg_view, find, result as result_of, forwarded, forwarded_again, at_home};
ghost use Rattle.store.specs.Answers.{outcome};
ghost use Rattle.store.specs.Laws.Lent.{TakenOn};
ghost use Rattle.segment_steps.specs.Words.{Sizes, seen};
ghost use Rattle.segment_forward.specs.Words.{Follows, root_or_old, new_target};

use store::{IDS_A_PAGE, PAGE_SIZE, Refusal};

// The search that both forwardings make: the new target's id, with its page written and the inventory not told yet; or 7, 4, 8. "The page
// named is the root's or old target's" excludes the pages of `id` and of `old`; the first forwarding has no old target and passes the root.
fn place_target(
    segment: &mut [u8],
    inventory: &[u8],
    id: usize,
    old: usize,
    bytes: &[u8],
    size: usize,
) -> Result<usize, Refusal>
    requires sizes { Sizes segment.old inventory.now }
    requires size_bound { size ≤ 16364 }
    ensures { outcome result segment.new inventory.now
        ≡ result_of segment.old (new_target inventory.now id (fit size bytes.now)
        (find found_in (seg_view segment.old) inventory.now (size + 8) (root_or_old id old))) }
{
    let n = segment.len() / PAGE_SIZE;
    let Some(page) = free_space_inventory::find_page(inventory, n, size + 16) else {
        return Err(Refusal::Full);
    };
    if !segment_pages::page_sound(segment, page) {
        return Err(Refusal::Damaged);
    }
    if page == id / IDS_A_PAGE || page == old / IDS_A_PAGE {
        return Err(Refusal::Stale);
    }
    let Some(place) = segment_steps::allocate_on(segment, page, size + 8) else {
        return Err(Refusal::Stale);
    };
    let rest = segment.split_at_mut(page * PAGE_SIZE).1;
    page_relocate::target::write_target(rest.first_chunk_mut().unwrap(), place, id, bytes, size);
    Ok(page * IDS_A_PAGE + place.slot)
}

// The first forwarding: the root's record becomes a redirect. The new target has the bytes, cut off or filled up with zeros to `size`.
pub fn forward(
    segment: &mut [u8],
    inventory: &mut [u8],
    id: usize,
    bytes: &[u8],
    size: usize,
) -> Result<usize, Refusal>
    requires sizes { Sizes segment.old inventory.old }
    requires taken_on { TakenOn segment.old (page_no id) (slot_no id) }
    requires size_bound { size ≤ 16364 }
    ensures { outcome result segment.new inventory.new
        ≡ result_of segment.old
        (forwarded (seg_view segment.old) inventory.old id size (λ o. fit size bytes.now) []
        (find found_in (seg_view segment.old) inventory.old (size + 8) (λ p. eqb p (page_no id)))) }
{
    let target = place_target(segment, inventory, id, id, bytes, size)?;
    let p = id / IDS_A_PAGE;
    segment_moves::erase_for_redirect_on(segment, p, id % IDS_A_PAGE, target);
    segment_steps::update_on(segment, inventory, p);
    segment_steps::update_on(segment, inventory, target / IDS_A_PAGE);
    Ok(id)
}

// The second: the root's redirect names the new target, and the old one at t is freed. Apart from the first: between the search and the
// inventory no step is the same.
pub fn forward_again(
    segment: &mut [u8],
    inventory: &mut [u8],
    id: usize,
    t: usize,
    bytes: &[u8],
    size: usize,
) -> Result<usize, Refusal>
    requires sizes { Sizes segment.old inventory.old }
    requires follows { Follows segment.old id t }
    requires size_bound { size ≤ 16364 }
    ensures { outcome result segment.new inventory.new
        ≡ result_of segment.old
        (forwarded_again (seg_view segment.old) inventory.old id size (λ o. fit size bytes.now) t []
        (find found_in (seg_view segment.old) inventory.old (size + 8) (λ p. eqb p (page_no id) || eqb p (page_no t)))) }
{
    let new_target = place_target(segment, inventory, id, t, bytes, size)?;
    segment_moves::set_redirect_on(segment, id / IDS_A_PAGE, id % IDS_A_PAGE, new_target);
    segment_steps::erase_on(segment, t / IDS_A_PAGE, t % IDS_A_PAGE);
    segment_steps::update_on(segment, inventory, t / IDS_A_PAGE);
    segment_steps::update_on(segment, inventory, new_target / IDS_A_PAGE);
    Ok(id)
}

// "From a redirect: needs the full size free": whether the root's page has that.
pub fn fits_home(segment: &[u8], id: usize, size: usize) -> bool
    requires { TakenOn segment.now (page_no id) (slot_no id) }
    ensures { result ≡ leb size (seen segment.now (page_no id)).free_space }
{
    size <= layout::header::get_free_space(segment_pages::page_of(segment, id / IDS_A_PAGE))
}

// The record of a redirect to t goes to the root's page, where it fits, and its target is freed.
pub fn at_home(
    segment: &mut [u8],
    inventory: &mut [u8],
    id: usize,
    t: usize,
    bytes: &[u8],
    size: usize,
) -> Result<usize, Refusal>
    requires sizes { Sizes segment.old inventory.old }
    requires follows { Follows segment.old id t }
    requires size_bound { size ≤ (seen segment.old (page_no id)).free_space }
    ensures { outcome result segment.new inventory.new
        ≡ result_of segment.old
        (at_home found_in (seg_view segment.old) inventory.old id size (λ o. fit size bytes.now) t []
        (relocate (seen segment.old (page_no id)) (slot_no id) size)) }
{
    segment_moves::rewrite_on(segment, id / IDS_A_PAGE, id % IDS_A_PAGE, bytes, size);
    segment_steps::erase_on(segment, t / IDS_A_PAGE, t % IDS_A_PAGE);
    segment_steps::update_on(segment, inventory, id / IDS_A_PAGE);
    segment_steps::update_on(segment, inventory, t / IDS_A_PAGE);
    Ok(id)
}
