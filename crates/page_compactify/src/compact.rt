// Compactify: every record against the page's end.
ghost use Rattle.std.specs.Prelude.{◌≡◌, ◌<◌};
ghost use Rattle.store.specs.Laws.Slots.{Codable};
ghost use Rattle.store.specs.Page.{view};
ghost use Rattle.store.specs.PageSteps.{pack, compactify, run};
ghost use Rattle.store.specs.Laws.Views.{Sound};
ghost use Rattle.page_compactify.specs.Keys.{kind_in, len_in, live, Movable, move_key, slots_of, Ready};

use crate::table::{Table, is_target, len_in, offset_in, slot_in};
use layout::header::Header;
use store::{PAGE_SIZE, Page, Slot};

// The slot of key e's record at d.
fn live_slot(e: usize, d: usize) -> Slot
    requires { d < 1073741824 }
    ensures { (result ≡ live (kind_in e) d (len_in e)) × Codable result }
{
    let length = len_in(e);
    if is_target(e) {
        Slot::Target { offset: d, length }
    } else {
        Slot::Ordinary { offset: d, length }
    }
}

// The entry of key e's record at d, then its bytes.
fn place(page: &mut Page, e: usize, d: usize)
    requires { Movable e d page.old }
    ensures { page.new ≡ move_key e d page.old }
{
    layout::slots::write_slot(page, slot_in(e), live_slot(e, d));
    layout_runs::move_within(page, offset_in(e), len_in(e), d);
}

// The records of these keys, packed; the new data start.
fn pack(page: &mut Page, keys: &[usize]) -> usize
    requires { Ready keys.now 16384 (view page.old) }
    ensures { (page.new ≡ run (pack (slots_of keys.now) 16384 (view page.old)).edits page.old)
        × (result ≡ (pack (slots_of keys.now) 16384 (view page.old)).after.data_start) }
{
    let mut d = PAGE_SIZE;
    for e in keys {
        d -= len_in(*e);
        place(page, *e, d);
    }
    Header {
        start: d,
        ..Header::of(page)
    }
    .write(page);
    d
}

// All records against the page's end; the new data start.
pub fn compactify(page: &mut Page) -> usize
    requires { Sound (view page.old) }
    ensures { (page.new ≡ run (compactify (view page.old)).edits page.old)
        × (result ≡ (compactify (view page.old)).after.data_start) }
{
    let mut table = Table::new();
    table.collect(page, layout::header::get_slot_count(page));
    pack(page, table.keys())
}
