// The calls on a segment and the scan, under one name: slotted_page_segment.rs for users in Rattle. Each is proved where it stands, with
// no `requires`, and its contract is one equation with the documents' step (crates/store/specs/Segment.antt, ManyRows.antt,
// Scan.antt, Repair.antt, Report.antt).
#![tactic(auto)]

pub use fill_report::fill_report;
pub use segment_erase::erase_record;
pub use segment_insert::{allocate, insert_record, insert_records};
pub use segment_read::{find_record, get_record};
pub use segment_repair::repair;
pub use segment_scan::{held, scan_step};
pub use segment_write::resize::resize_record;
pub use segment_write::write::write_record;
// What the calls answer. The crate of a user lists `store` beside this one, since `store` declares them.
pub use store::{ListRefusal, Part, Record, Refusal, RepairRefusal, ReportRefusal, Step, Tally};
