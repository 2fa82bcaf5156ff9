// The file is written: all pages are sound and it fits, so that nothing is tested any more.
ghost use Rattle.std.specs.Prelude.{◌≡◌, true, ◌+◌, ◌≤◌, length};
ghost use Rattle.store.specs.Numbers.{cut, put};
ghost use Rattle.store.specs.Page.{view, sound};
ghost use Rattle.store.specs.PageSteps.{opened};
ghost use Rattle.store.specs.Report.{all_sound};
ghost use Rattle.store.specs.Segment.{seg_view, size_ok};
ghost use Rattle.exchange.specs.Exchange.{file_record};
ghost use Rattle.exchange.specs.Words.{Reads, OnPage, part_length, part_file, page_file, segment_file};

use crate::format::{AROUND, BEFORE};
use crate::parts::{HEAD, Part, part_on};
use segment_pages::page_of;
use store::{PAGE_SIZE, Page};

// The reading of these bytes of the page.
fn write_reading(file: &mut [u8], at: usize, page: &Page, offset: usize, n: usize)
    requires reads { Reads page.now offset n }
    requires n_in_bounds { at + (n + 4) ≤ length file.old }
    ensures { file.new ≡ put file.old at (file_record (cut page.now offset n)) }
{
    file[at] = 0x52;
    file[at + 1] = 0x54;
    layout::put_u64(file, at + 2, layout::get_u64(page, offset));
    layout::put_u16(file, at + 10, n - HEAD);
    layout_runs::copy_in(file, at + BEFORE, &page[offset + HEAD..offset + n]);
}

// What a slot of the page is in the file; where the file goes on behind it. The place is handed on: as a field beside the lent file it
// would be no plainer, `out.at = ..` for each `at = ..`.
fn write_part(file: &mut [u8], at: usize, page: &Page, part: Part) -> usize
    requires on_page { OnPage page.now part }
    requires part_in_bounds { at + part_length part ≤ length file.old }
    ensures { (file.new ≡ put file.old at (part_file page.now part)) × (result ≡ at + part_length part) }
{
    match part {
        Part::Reading { offset, length } => {
            write_reading(file, at, page, offset, length);
            at + (length + AROUND)
        }
        Part::Passed | Part::Nothing => at,
    }
}

// The slots of a page that is sound.
fn write_page(file: &mut [u8], at: usize, page: &Page) -> usize
    requires page_sound { sound (view page.now) ≡ true }
    requires page_in_bounds { at + length (page_file (opened (view page.now))) ≤ length file.old }
    ensures { (file.new ≡ put file.old at (page_file (opened (view page.now))))
        × (result ≡ at + length (page_file (opened (view page.now)))) }
{
    let mut to = at;
    for k in 0..layout::header::get_slot_count(page) {
        to = write_part(file, to, page, part_on(page, k));
    }
    to
}

// Page by page.
pub fn write_file(segment: &[u8], file: &mut [u8])
    requires segment_value { (size_ok segment.now ≡ true) × (all_sound (seg_view segment.now) ≡ true) }
    requires segment_in_bounds { length (segment_file (seg_view segment.now)) ≤ length file.old }
    ensures { file.new ≡ put file.old 0 (segment_file (seg_view segment.now)) }
{
    let mut at = 0;
    for p in 0..segment.len() / PAGE_SIZE {
        at = write_page(file, at, page_of(segment, p));
    }
}
