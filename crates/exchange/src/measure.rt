// How long the file is: each page is checked and measured before a byte is written.
ghost use Rattle.std.specs.Prelude.{◌≡◌, true, ◌+◌, ◌^◌, ◌<◌};
ghost use Rattle.store.specs.Page.{view, sound};
ghost use Rattle.store.specs.PageSteps.{opened};
ghost use Rattle.store.specs.Segment.{seg_view, size_ok};
ghost use Rattle.exchange.specs.Words.{part_length, part_passed, PageSums, Measured};

use crate::Exported;
use crate::format::AROUND;
use crate::parts::{Part, part_on};
use segment_pages::page_of;
use store::{PAGE_SIZE, Page};

// One slot more.
fn with_part(sums: Exported, part: Part) -> Exported
    requires { (sums.length + part_length part < 2 ^ 63) × (sums.passed + part_passed part < 2 ^ 63) }
    ensures { (result.length ≡ sums.length + part_length part) × (result.passed ≡ sums.passed + part_passed part) }
{
    match part {
        Part::Reading { length, .. } => Exported {
            length: sums.length + (length + AROUND),
            ..sums
        },
        Part::Passed => Exported {
            passed: sums.passed + 1,
            ..sums
        },
        Part::Nothing => sums,
    }
}

// The slots of a page that is sound; a fresh one has none.
fn measure_page(page: &Page) -> Exported
    requires { sound (view page.now) ≡ true }
    ensures { PageSums (opened (view page.now)) result }
{
    let mut sums = Exported::default();
    for k in 0..layout::header::get_slot_count(page) {
        sums = with_part(sums, part_on(page, k));
    }
    sums
}

// Page by page; none where a page is not sound.
pub fn measure_segment(segment: &[u8]) -> Option<Exported>
    requires { size_ok segment.now ≡ true }
    ensures { Measured (seg_view segment.now) result }
{
    let mut sums = Exported::default();
    for p in 0..segment.len() / PAGE_SIZE {
        let page = page_of(segment, p);
        if !page_check::is_sound(page) {
            return None;
        }
        let more = measure_page(page);
        sums.length += more.length;
        sums.passed += more.passed;
    }
    Some(sums)
}
