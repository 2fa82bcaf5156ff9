// The first pass: each page is checked, and each window of 64 reading numbers in which the mirror has a record is marked.
ghost use Rattle.std.specs.Prelude.{◌≡◌, true};
ghost use Rattle.store.specs.Page.{view, sound};
ghost use Rattle.store.specs.PageSteps.{opened};
ghost use Rattle.store.specs.Segment.{seg_view, size_ok};
ghost use Rattle.exchange.specs.Words.{page_readings};
ghost use Rattle.polishing.specs.Words.{with_mark, windows_over, Marked};

use crate::heads::Row;
use segment_pages::page_of;
use store::{PAGE_SIZE, Page};

// The numbers of a window, and how many windows there are.
pub const SPAN: usize = 64;

pub const WINDOWS: usize = 1024;

// The window of one record.
fn mark_head(marked: &mut [bool; WINDOWS], head: Option<Row>)
    ensures { marked.new ≡ with_mark marked.old head }
{
    if let Some(row) = head {
        marked[usize::from(row.reading) / SPAN] = true;
    }
}

// The slots of a page that is sound; a fresh one has none.
fn mark_page(marked: &mut [bool; WINDOWS], page: &Page, mirror: usize)
    requires { sound (view page.now) ≡ true }
    ensures { marked.new ≡ windows_over mirror marked.old (page_readings (opened (view page.now))) }
{
    for k in 0..layout::header::get_slot_count(page) {
        mark_head(marked, crate::heads::head_at(page, k, mirror));
    }
}

// Page by page; none where a page is not sound.
pub fn marked_windows(segment: &[u8], mirror: usize) -> Option<[bool; WINDOWS]>
    requires { size_ok segment.now ≡ true }
    ensures { Marked mirror (seg_view segment.now) result }
{
    let mut marked = [false; WINDOWS];
    for p in 0..segment.len() / PAGE_SIZE {
        let page = page_of(segment, p);
        if !page_check::is_sound(page) {
            return None;
        }
        mark_page(&mut marked, page, mirror);
    }
    Some(marked)
}
