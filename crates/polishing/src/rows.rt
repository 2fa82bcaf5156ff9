// A window's pass: "each row below the named number of rows is there exactly once, with no other row", of 64 readings at once. Word k of the map
// tells of row k, and bit j of a word of the window's reading j; so the readings that have every row are what the words have in common.
ghost use Rattle.std.specs.Prelude.{◌≡◌, true};
ghost use Rattle.store.specs.Page.{view, sound};
ghost use Rattle.store.specs.PageSteps.{opened};
ghost use Rattle.store.specs.Records.{records};
ghost use Rattle.store.specs.Report.{all_sound};
ghost use Rattle.store.specs.Segment.{seg_view, size_ok};
ghost use Rattle.exchange.specs.Exchange.{readings};
ghost use Rattle.exchange.specs.Words.{page_readings};
ghost use Rattle.polishing.specs.Polishing.{whole_in, word};
ghost use Rattle.polishing.specs.Words.{with_row, with_head, marks_over, in_rows};

use crate::heads::Row;
use crate::wanted::Wanted;
use crate::windows::SPAN;
use segment_pages::page_of;
use store::{PAGE_SIZE, Page};

// The most rows that may be named.
pub const MOST_ROWS: usize = 2048;

// Which rows of the window's readings are there, and which readings are spoiled.
#[derive(Drop)]
struct Marks {
    map: [usize; MOST_ROWS],
    spoiled: usize,
}

impl Marks {
    // One row: a row that is there already spoils its reading, and so does one from `rows` on.
    fn add_row(&mut self, w: Wanted, head: Row)
        ensures { self.new ≡ with_row w.rows self.old head.reading head.row }
    {
        let bit = 1 << (usize::from(head.reading) % SPAN);
        let row = usize::from(head.row);
        if w.rows <= row {
            self.spoiled |= bit;
            return;
        }
        self.spoiled |= self.map[row] & bit;
        self.map[row] |= bit;
    }

    // One record, if it is of the window.
    fn add_head(&mut self, w: Wanted, head: Option<Row>)
        ensures { self.new ≡ with_head w self.old head }
    {
        let Some(row) = head else {
            return;
        };
        if usize::from(row.reading) / SPAN != w.window {
            return;
        }
        self.add_row(w, row);
    }

    // The slots of a page that is sound.
    fn add_page(&mut self, w: Wanted, page: &Page)
        requires { sound (view page.now) ≡ true }
        ensures { self.new ≡ marks_over w self.old (page_readings (opened (view page.now))) }
    {
        for k in 0..layout::header::get_slot_count(page) {
            self.add_head(w, crate::heads::head_at(page, k, w.mirror));
        }
    }

    // Page by page: all are sound, so that nothing is checked any more.
    fn add_segment(&mut self, w: Wanted, segment: &[u8])
        requires { (size_ok segment.now ≡ true) × (all_sound (seg_view segment.now) ≡ true) }
        ensures { self.new ≡ marks_over w self.old (readings (records (seg_view segment.now))) }
    {
        for p in 0..segment.len() / PAGE_SIZE {
            self.add_page(w, page_of(segment, p));
        }
    }

    // The bits of `word` that the words of all rows have too.
    fn in_rows(&self, w: Wanted, word: usize) -> usize
        ensures { result ≡ in_rows w.rows self.now.map word }
    {
        let mut common = word;
        for row in &self.map[..w.rows] {
            common &= row;
        }
        common
    }
}

// The window's whole readings, a bit each: those that are not spoiled and have every row.
pub fn whole_in(segment: &[u8], w: Wanted) -> usize
    requires { (size_ok segment.now ≡ true) × (all_sound (seg_view segment.now) ≡ true) }
    ensures { result ≡ word (whole_in segment.now w.mirror w.rows) w.window }
{
    let mut marks = Marks {
        map: [0; MOST_ROWS],
        spoiled: 0,
    };
    marks.add_segment(w, segment);
    marks.in_rows(w, !marks.spoiled)
}
