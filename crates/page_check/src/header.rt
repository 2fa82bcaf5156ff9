// What the check reads of a page's header, and whether it fits.
ghost use Rattle.std.specs.Prelude.{◌≡◌, ◌≤◌};
ghost use Rattle.store.specs.Page.{view};
ghost use Rattle.store.specs.declared.Slot.TheVariants.{Free};
ghost use Rattle.layout.specs.Head.{Heads};
ghost use Rattle.page_check.specs.Fit.{Tells, HeaderFits};

use layout::header::Header;
use store::{ENTRY, HEADER, MOST_SLOTS, PAGE_SIZE, Page};

// Whether the first free slot is free: it is the count if none is. That no slot below it is free is found with the records.
#[tactic(auto, using(store::proofs::Laws::SoundPage::past_free))]
fn first_is_free(header: Header, page: &Page) -> bool
    requires { Heads header (view page.now) × (header.count ≤ 2046) × (header.first ≤ header.count) }
    ensures { Tells result ((view page.now).at header.first ≡ Free) }
{
    header.first == header.count || layout::slots::get_slot(page, header.first).is_free()
}

// "count at most 2,046", "12 + 8 × count ≤ data start ≤ 16,384", and the first free slot. It is asked for between the two bounds of
// data start, which the compiler would make one longer test of. The page stays a parameter beside its header: a header that lends its
// page would name it in every clause.
pub fn fits(header: Header, page: &Page) -> bool
    requires { Heads header (view page.now) }
    ensures { Tells result (HeaderFits (view page.now) header.count header.first header.start) }
{
    header.count <= MOST_SLOTS
        && header.first <= header.count
        && HEADER + ENTRY * header.count <= header.start
        && first_is_free(header, page)
        && header.start <= PAGE_SIZE
}
