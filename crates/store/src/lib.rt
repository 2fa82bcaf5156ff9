// Document 01's sizes, the kinds of a slot's entry, what the calls answer, and why they refuse. What it means is defined in specs/, and the
// documents' number of each answer stands in specs/Answers.antt.
#![tactic(auto)]

mod entry;
mod number;

// "page 16,384 bytes"; "an id is page × 65,536 + slot"; "new size above 16,364"; "count at most 2,046"; "n from 0 to 32,527"
pub const PAGE_SIZE: usize = 16384;

pub const IDS_A_PAGE: usize = 65536;

pub const LONGEST: usize = 16364;

pub const MOST_SLOTS: usize = 2046;

pub const MOST_PAGES: usize = 32527;

// The bytes of a page's header, of a slot's entry, and of the id in front of a target's record; what a page has beside its header.
pub const HEADER: usize = 12;

pub const ENTRY: usize = 8;

pub const BACK: usize = 8;

pub const ROOM: usize = PAGE_SIZE - HEADER;

pub type Page = [u8; PAGE_SIZE];

// The place of a repair's entry where it is not a slot.
pub const AT_HEADER: u64 = 65535;

pub const AT_INVENTORY: u64 = 65536;

#[derive(Clone, Copy)]
pub enum Slot {
    Ordinary { offset: usize, length: usize },
    Free,
    Redirect { id: usize },
    Target { offset: usize, length: usize },
}

// Why a call that reads, writes or scans records is refused: the documents' numbers 1 to 8.
#[derive(Clone, Copy, Debug, PartialEq, Eq)]
pub enum Refusal {
    Size,
    NoPage,
    Long,
    Damaged,
    NoRecord,
    Forwarded,
    Full,
    Stale,
}

// Where a new record goes on its page.
#[derive(Clone, Copy)]
pub struct Place {
    pub slot: usize,
    pub offset: usize,
}

// The part of a segment that is a record.
#[derive(Clone, Copy, Default)]
pub struct Part {
    pub offset: usize,
    pub length: usize,
}

// A record that the scan lists.
#[derive(Clone, Copy)]
pub struct Record {
    pub id: usize,
    pub part: Part,
}

// A step of the scan: a record, or none where the scan is over, and the next position.
#[derive(Clone, Copy)]
pub struct Step {
    pub found: Option<Record>,
    pub page: usize,
    pub slot: usize,
}

// What repair does to a slot.
#[derive(Clone, Copy, Debug, PartialEq, Eq)]
pub enum Deed {
    Stays,
    RecordFreed,
    RedirectFreed,
    MadeOrdinary,
}

// Why a repair is refused; with the entries that it would need.
#[derive(Clone, Copy)]
pub enum RepairRefusal {
    Size,
    Room { count: usize },
}

// Why an insert of many rows is refused: the whole list, or a row, where it stopped after so many.
#[derive(Clone, Copy)]
pub enum ListRefusal {
    Size,
    List,
    Stopped { rows: usize, refusal: Refusal },
}

// "One running tally": figures over any number of segments, in the order that C has them (include/hekatosuy.h).
#[repr(C)]
#[derive(Clone, Copy, Default)]
pub struct Tally {
    pub pages: u64,
    pub fresh_pages: u64,
    pub slots: u64,
    pub records: u64,
    pub record_bytes: u64,
    pub forwarded: u64,
    pub free_bytes: u64,
    pub classes: [u64; 16],
}

// Why a fill report is refused.
#[derive(Clone, Copy)]
pub enum ReportRefusal {
    Size,
    Damaged,
    Tally,
}
