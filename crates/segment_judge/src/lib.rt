// What repair does to each slot of a page, by the bytes as they stand: "Then free redirects without a kept target pointing back from another
// page; a target that no kept redirect names becomes an ordinary record".
#![tactic(auto)]

ghost use Rattle.std.specs.Prelude.{ℕ, ◌≡◌, true, not, ◌/◌, ◌<◌, length, slice_index};
ghost use Rattle.store.specs.Numbers.{all};
ghost use Rattle.store.specs.Slots.{is_target};
ghost use Rattle.store.specs.Page.{view, sound as soundPage};
ghost use Rattle.store.specs.Segment.{page_of};
ghost use Rattle.store.specs.Repair.{standing, keeps, holds as holdsBy, named as named_by, deed, changes};
ghost use Rattle.store.specs.Laws.Lent.{Within};
ghost use Rattle.page_repair.specs.Kept.{judged};
ghost use Rattle.segment_judge.specs.Words.{Checked, Known, UsedPageOn, UsedOn, SlotApart, KeptTarget, Deeds};

use layout::slots::REDIRECT;
use page_repair::keep::Deeds;
use page_repair::marks::is_marked;
use segment_pages::page_of;
use store::{BACK, Deed, ENTRY, HEADER, IDS_A_PAGE, MOST_PAGES, MOST_SLOTS, PAGE_SIZE, Page, Slot};

// One bit for each page that a segment can have: whether it is sound.
pub type Sound = [usize; WORDS];

const WORDS: usize = (MOST_PAGES + 63) / 64;

// Which pages are sound.
pub fn check_pages(segment: &[u8]) -> Sound
    requires { length segment.now / 16384 < 32528 }
    ensures { Checked segment.now result }
{
    let mut sound = [0; WORDS];
    for p in 0..segment.len() / PAGE_SIZE {
        if page_check::is_sound(page_of(segment, p)) {
            page_repair::marks::set_mark(&mut sound, p);
        }
    }
    sound
}

// A segment as it stands, and which of its pages are known to be sound.
#[derive(Clone, Copy)]
pub struct Judge<'a> {
    segment: &'a [u8],
    sound: &'a Sound,
    ghost known: { Known segment.now sound.now },
    ghost bytes: { (i : ℕ) → slice_index segment.now i < 256 },
}

impl<'a> Judge<'a> {
    pub fn new(segment: &'a [u8], sound: &'a Sound) -> Judge<'a>
        requires { Known segment.now sound.now }
        ensures { result.segment.now ≡ segment.now }
    {
        Judge { segment, sound }
    }

    // How many pages there are.
    pub fn pages(&self) -> usize
        ensures { result ≡ length self.now.segment.now / 16384 }
    {
        self.segment.len() / PAGE_SIZE
    }

    // Page p, to be read.
    pub fn page(&self, p: usize) -> &'a Page
        requires { Within self.now.segment.now p }
        ensures { result.now ≡ page_of self.now.segment.now p }
    {
        page_of(self.segment, p)
    }

    // Whether page p is known to be sound.
    pub fn is_sound(&self, p: usize) -> bool
        requires { Within self.now.segment.now p }
        ensures { result ≡ true → soundPage (view (page_of self.now.segment.now p)) ≡ true }
    {
        let sound = self.sound;
        is_marked(sound, p)
    }

    // Whether slot k of page p, which holds a target, is kept. On a sound page every record is.
    fn target_kept(&self, p: usize, k: usize) -> bool
        requires { UsedOn self.now.segment.now p k × (is_target ((view (page_of self.now.segment.now p)).at k) ≡ true) }
        ensures { result ≡ keeps (view (page_of self.now.segment.now p)) k }
    {
        self.is_sound(p) || page_repair::keep::is_kept(self.page(p), k)
    }

    // The slot of id t, where its page is there, another than that of id i, and has at most 2,046 slots.
    fn slot_of(&self, i: usize, t: usize) -> Option<Slot>
        ensures { SlotApart self.now.segment.now i t result }
    {
        let p = t / IDS_A_PAGE;
        if !segment_pages::elsewhere(self.segment, i, t) {
            return None;
        }
        if MOST_SLOTS < layout::header::get_slot_count(self.page(p)) {
            return None;
        }
        Some(segment_pages::slot_on(self.segment, p, t % IDS_A_PAGE))
    }

    // Whether the redirect of id i, which names t, has "a kept target pointing back from another page".
    fn holds(&self, i: usize, t: usize) -> bool
        ensures { result ≡ holdsBy (standing self.now.segment.now) i t }
    {
        let p = t / IDS_A_PAGE;
        let Some(Slot::Target { offset, .. }) = self.slot_of(i, t) else {
            return false;
        };
        if PAGE_SIZE < offset + BACK {
            return false;
        }
        if segment_pages::back_id_on(self.segment, p, offset) != i {
            return false;
        }
        self.target_kept(p, t % IDS_A_PAGE)
    }

    // Whether the kept target of id t is named by a kept redirect: only the one at its back id, b, can be that.
    fn named(&self, t: usize, b: usize) -> bool
        requires { KeptTarget self.now.segment.now t b }
        ensures { result ≡ named_by (standing self.now.segment.now) t }
    {
        let Some(Slot::Redirect { id }) = self.slot_of(t, b) else {
            return false;
        };
        id == t
    }

    // What is done to slot k of page p, which is in use; `freed` is what its page tells.
    fn judge_slot(&self, p: usize, k: usize, freed: Deed) -> Deed
        requires { UsedOn self.now.segment.now p k × (freed ≡ judged (view (page_of self.now.segment.now p)) k) }
        ensures { result ≡ deed (standing self.now.segment.now) p k }
    {
        let i = p * IDS_A_PAGE + k;
        match layout::slots::get_slot(self.page(p), k) {
            Slot::Ordinary { .. } => freed,
            Slot::Free => Deed::Stays,
            Slot::Redirect { id } => {
                if self.holds(i, id) {
                    Deed::Stays
                } else {
                    Deed::RedirectFreed
                }
            }
            Slot::Target { offset, .. } => {
                if freed != Deed::Stays {
                    return Deed::RecordFreed;
                }
                let b = segment_pages::back_id_on(self.segment, p, offset);
                if self.named(i, b) {
                    Deed::Stays
                } else {
                    Deed::MadeOrdinary
                }
            }
        }
    }

    // The same of all n slots of the page; those behind them stay.
    pub fn judge_page(&self, p: usize, n: usize) -> Deeds
        requires { UsedPageOn self.now.segment.now p n }
        ensures { Deeds (deed (standing self.now.segment.now) p) result }
    {
        let mut deeds = [Deed::Stays; MOST_SLOTS];
        page_repair::keep::judge_records(self.page(p), n, &mut deeds);
        for k in 0..n {
            deeds[k] = self.judge_slot(p, k, deeds[k]);
        }
        deeds
    }

    // Whether no slot of the page, which is sound and has n, changes. On such a page ordinary and free slots stay: their entries begin below
    // those of the other two kinds.
    pub fn all_stay(&self, p: usize, n: usize) -> bool
        requires { UsedPageOn self.now.segment.now p n × (soundPage (view (page_of self.now.segment.now p)) ≡ true) }
        ensures { result ≡ all n (λ k. not (changes (deed (standing self.now.segment.now) p k))) }
    {
        let page = self.page(p);
        for k in 0..n {
            if REDIRECT <= layout::get_u32(page, HEADER + ENTRY * k)
                && self.judge_slot(p, k, Deed::Stays) != Deed::Stays
            {
                return false;
            }
        }
        true
    }
}
