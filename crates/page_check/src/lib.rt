// Whether a page is sound, by document 01's "Sound page": the header, then every slot in one pass, then the free space. Each call
// checks every page it touches, so this decides the store's speed: it takes time linear in the slots, and in the page's bytes by 64.
#![tactic(auto)]

mod header;
pub mod map;
mod slot;
mod sweep;

ghost use Rattle.std.specs.Prelude.{◌≡◌, ◌&&◌, length, eqb};
ghost use Rattle.store.specs.Page.{view, sound};
ghost use Rattle.layout.specs.Run.{Counted};
ghost use Rattle.page_check.specs.Fit.{Passed};

use layout::header::Header;
use store::{ENTRY, Page, ROOM};

// The sum of the records' lengths, if they lie well and apart. Where they lie in the order of their slots, as inserts leave them, no map
// is needed; where they do not, the map decides.
fn records_fit(page: &Page, header: Header) -> Option<usize>
    requires { Counted page.now header.count }
    ensures { Passed (view page.now) header result }
{
    let swept = sweep::sweep(page, header);
    if swept.is_some() {
        return swept;
    }
    let mut used = [0; map::WORDS];
    map::claim_all(page, header, &mut used)
}

// A page without slots is sound exactly if it is fresh: "Any other page with count 0 is not sound." Last comes "free space = 16,372 − 8 ×
// count − the sum of all ordinary and target lengths".
pub fn is_sound(page: &Page) -> bool
    ensures { result ≡ sound (view page.now) }
{
    let header = Header::of(page);
    if header.count == 0 {
        return layout::header::is_fresh(page);
    }
    if !header::fits(header, page) {
        return false;
    }
    match records_fit(page, header) {
        Some(total) => header.space + ENTRY * header.count + total == ROOM,
        None => false,
    }
}

// The same of any bytes: a page has 16,384.
pub fn is_sound_page(bytes: &[u8]) -> bool
    ensures { result ≡ (eqb (length bytes.now) 16384 && sound (view bytes.now)) }
{
    match bytes.as_array() {
        Some(page) => is_sound(page),
        None => false,
    }
}
