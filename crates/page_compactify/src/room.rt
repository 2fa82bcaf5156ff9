// Room on a page: "If the gap between directory and data start is too small for what is added, the page is compactified first; otherwise it isn't."
ghost use Rattle.std.specs.Prelude.{◌≤◌};
ghost use Rattle.store.specs.Page.{view};
ghost use Rattle.store.specs.Laws.Views.{Sound};
ghost use Rattle.page_compactify.specs.Room.{Roomed};

use layout::header::Header;
use store::Page;

// A gap of n bytes, by compactify where it has to be made; the data start.
pub fn make_room(page: &mut Page, n: usize) -> usize
    requires { Sound (view page.old) × (n ≤ (view page.old).free_space) }
    ensures { Roomed n page.old page.new result }
{
    let header = Header::of(page);
    if header.gap() < n {
        return crate::compact::compactify(page);
    }
    header.start
}
