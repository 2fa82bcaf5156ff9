// The header: its four numbers as the view has them, each and together, and all of it written.
ghost use Rattle.std.specs.Prelude.{◌≡◌, ◌+◌, ◌-◌, ◌*◌, ◌≤◌, ◌<◌, length};
ghost use Rattle.store.specs.Numbers.{put};
ghost use Rattle.store.specs.Page.{view, fresh};
ghost use Rattle.layout.specs.Run.{head_of};
ghost use Rattle.layout.specs.Head.{Heads};

use store::{ENTRY, HEADER, PAGE_SIZE, Page, ROOM};

// The four numbers, which a step reads and writes together.
#[derive(Clone, Copy, Debug, Default, PartialEq, Eq)]
pub struct Header {
    pub count: usize,
    pub first: usize,
    pub start: usize,
    pub space: usize,
}

impl Header {
    // Those that the page says.
    pub fn of(page: &Page) -> Header
        ensures { Heads result (view page.now) }
    {
        Header {
            count: get_slot_count(page),
            first: get_first_free_slot(page),
            start: get_data_start(page),
            space: get_free_space(page),
        }
    }

    pub fn write(self, page: &mut Page)
        ensures { page.new ≡ put page.old 0 (head_of self.count self.first self.start self.space) }
    {
        set_header(page, self.count, self.first, self.start, self.space);
    }

    // The bytes between the directory and data start.
    pub fn gap(self) -> usize
        requires { 12 + 8 * self.count ≤ self.start }
        ensures { result ≡ self.start - (12 + 8 * self.count) }
    {
        self.start - (HEADER + ENTRY * self.count)
    }
}

#[tactic(auto, unfolding(store::specs::Page::view))]
pub fn get_slot_count(page: &Page) -> usize
    ensures { (result ≡ (view page.now).slot_count) × (result < 65536) }
{
    crate::get_u16(page, 0)
}

#[tactic(auto, unfolding(store::specs::Page::view))]
pub fn get_first_free_slot(page: &Page) -> usize
    ensures { (result ≡ (view page.now).first_free) × (result < 65536) }
{
    crate::get_u16(page, 2)
}

#[tactic(auto, unfolding(store::specs::Page::view))]
pub fn get_data_start(page: &Page) -> usize
    ensures { (result ≡ (view page.now).data_start) × (result < 4294967296) }
{
    crate::get_u32(page, 4)
}

#[tactic(auto, unfolding(store::specs::Page::view))]
pub fn get_free_space(page: &Page) -> usize
    ensures { (result ≡ (view page.now).free_space) × (result < 4294967296) }
{
    crate::get_u32(page, 8)
}

// Whether the page is fresh: "its 12 header bytes are all zero or are exactly the initialised header." A page in use is told by its count.
pub fn is_fresh(page: &Page) -> bool
    ensures { result ≡ fresh (view page.now) }
{
    let Header {
        count,
        first,
        start,
        space,
    } = Header::of(page);
    matches!(
        (count, first, start, space),
        (0, 0, 0, 0) | (0, 0, PAGE_SIZE, ROOM)
    )
}

// The four numbers at the start of any bytes.
#[tactic(auto, using(crate::proofs::Codec::header_put))]
pub fn set_header(page: &mut [u8], c: usize, f: usize, d: usize, n: usize)
    requires { 12 ≤ length page.old }
    ensures { page.new ≡ put page.old 0 (head_of c f d n) }
{
    crate::put_u16(page, 0, c);
    crate::put_u16(page, 2, f);
    crate::put_u32(page, 4, d);
    crate::put_u32(page, 8, n);
}
