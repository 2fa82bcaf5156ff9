// Allocate on any sound page, but for the record's bytes: a fresh one is initialised first.
ghost use Rattle.std.specs.Prelude.{◌≡◌, true, ◌≤◌};
ghost use Rattle.store.specs.Page.{view, sound};
ghost use Rattle.store.specs.Answers.{given_place, allotted};
ghost use Rattle.store.specs.PageSteps.{opened, put_head, initialised, allocate};
ghost use Rattle.page_places.specs.Words.{page_bare, Inside, PastEntry};

use layout::header::Header;
use store::{PAGE_SIZE, Page, Place, ROOM};

// The header of a page just initialised.
fn initialize(page: &mut Page)
    ensures { page.new ≡ put_head initialised page.old }
{
    Header {
        count: 0,
        first: 0,
        start: PAGE_SIZE,
        space: ROOM,
    }
    .write(page);
}

// On a sound page a count of 0 says that it is fresh. A size of at most 16,364 finds room there, so a refusal never leaves one initialised.
pub fn allocate(page: &mut Page, size: usize) -> Option<Place>
    requires { (sound (view page.old) ≡ true) × (size ≤ 16364) }
    ensures { (page.new ≡ page_bare (allocate (opened (view page.old)) size) page.old)
        × (given_place result ≡ allotted (allocate (opened (view page.old)) size)) × Inside result size × PastEntry result }
{
    if layout::header::get_slot_count(page) == 0 {
        initialize(page);
    }
    page_places::reserve::reserve(page, size)
}
