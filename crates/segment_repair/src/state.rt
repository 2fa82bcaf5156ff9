// What a page is to repair.
ghost use Rattle.store.specs.Page.{view};
ghost use Rattle.segment_repair.specs.Words.{StandsAs};

use store::{MOST_SLOTS, Page};

// "a page whose count is above 2,046, or is 0 without being fresh", which is lost; a fresh one; or one in use, with so many slots.
#[derive(Clone, Copy)]
pub enum State {
    Lost,
    Fresh,
    Used { slots: usize },
}

pub fn state_of(page: &Page) -> State
    ensures { StandsAs (view page.now) result }
{
    let slots = layout::header::get_slot_count(page);
    if MOST_SLOTS < slots {
        return State::Lost;
    }
    if slots != 0 {
        return State::Used { slots };
    }
    if layout::header::is_fresh(page) {
        State::Fresh
    } else {
        State::Lost
    }
}
