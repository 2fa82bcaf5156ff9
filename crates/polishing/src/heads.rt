// Reading and row of a mirror's record: "the 8 bytes of mirror, reading and row and then the data".
ghost use Rattle.std.specs.Prelude.{◌≡◌, true, ◌<◌};
ghost use Rattle.store.specs.Page.{view, sound};
ghost use Rattle.exchange.specs.Words.{part_of_slot, OnPage};
ghost use Rattle.polishing.specs.Words.{part_head};

use exchange::parts::Part;
use store::Page;

#[derive(Clone, Copy)]
pub struct Row {
    pub reading: u16,
    pub row: u16,
}

// Of what a slot is in the exchange file: "Records under 8 bytes don't count." None of another mirror's record.
fn head_of(page: &Page, part: Part, mirror: usize) -> Option<Row>
    requires { OnPage page.now part }
    ensures { result ≡ part_head mirror page.now part }
{
    let Part::Reading { offset, .. } = part else {
        return None;
    };
    if layout::get_u32(page, offset) != mirror {
        return None;
    }
    Some(Row {
        reading: layout::get_u16(page, offset + 4) as u16,
        row: layout::get_u16(page, offset + 6) as u16,
    })
}

// Of slot k of a page that is sound.
pub fn head_at(page: &Page, k: usize, mirror: usize) -> Option<Row>
    requires { (sound (view page.now) ≡ true) × (k < (view page.now).slot_count) }
    ensures { result ≡ part_head mirror page.now (part_of_slot ((view page.now).at k)) }
{
    head_of(page, exchange::parts::part_on(page, k), mirror)
}
