// How many entries there will be, and the true inventory, before anything is written.
ghost use Rattle.std.specs.Prelude.{◌≡◌, ◌/◌, length};
ghost use Rattle.store.specs.Numbers.{zeros};
ghost use Rattle.store.specs.Repair.{standing, seg_entries, true_of, same_inv};
ghost use Rattle.store.specs.Laws.Lent.{Within};
ghost use Rattle.segment_judge.specs.Words.{UsedPageOn};
ghost use Rattle.segment_repair.specs.Words.{CountedAs};

use crate::state::{State, state_of};
use layout::header::Header;
use page_repair::mend;
use segment_judge::Judge;
use store::Page;

// Of a page: how many entries it gets, and how much is free on it afterwards, if it is in use then.
#[derive(Clone, Copy)]
pub struct Counted {
    pub entries: usize,
    pub space: Option<usize>,
}

// A page in use, of n slots, gone through in full.
fn count_mended(judge: &Judge, p: usize, n: usize) -> Counted
    requires { UsedPageOn judge.now.segment.now p n }
    ensures { CountedAs (standing judge.now.segment.now) p result }
{
    let deeds = judge.judge_page(p, n);
    let page = judge.page(p);
    let r = mend::gather(page, n, &deeds);
    let h = mend::header_after(page, n, r);
    let mut entries = r.changes;
    if Header::of(page) != h {
        entries += 1;
    }
    Counted {
        entries,
        space: Some(h.space),
    }
}

// The same; one that is sound is looked at for its redirects and targets alone.
fn count_used(judge: &Judge, p: usize, n: usize) -> Counted
    requires { UsedPageOn judge.now.segment.now p n }
    ensures { CountedAs (standing judge.now.segment.now) p result }
{
    if judge.is_sound(p) && judge.all_stay(p, n) {
        return Counted {
            entries: 0,
            space: Some(layout::header::get_free_space(judge.page(p))),
        };
    }
    count_mended(judge, p, n)
}

// A page that is lost gets a zero header; one that is fresh stays.
fn count_page(judge: &Judge, p: usize) -> Counted
    requires { Within judge.now.segment.now p }
    ensures { CountedAs (standing judge.now.segment.now) p result }
{
    match state_of(judge.page(p)) {
        State::Lost => Counted {
            entries: 1,
            space: None,
        },
        State::Fresh => Counted {
            entries: 0,
            space: None,
        },
        State::Used { slots } => count_used(judge, p, slots),
    }
}

// The entries of all pages; the true inventory is worked out in `inventory`, which is all zeros.
pub fn count_pages(judge: &Judge, inventory: &mut Page) -> usize
    requires { inventory.old ≡ zeros 16384 }
    ensures { (result ≡ length (seg_entries (standing judge.now.segment.now) (length judge.now.segment.now / 16384)))
        × (inventory.new ≡ true_of (standing judge.now.segment.now)) }
{
    let n = judge.pages();
    let mut entries = 0;
    for p in 0..n {
        let c = count_page(judge, p);
        entries += c.entries;
        if let Some(space) = c.space {
            free_space_inventory::update_page_size(inventory, n, p, space);
        }
    }
    entries
}

// Whether two inventories are the same.
pub fn same_inventory(a: &Page, b: &Page) -> bool
    ensures { result ≡ same_inv a.now b.now }
{
    a == b
}
