// Lists the records of a segment of 0 to 3 whole pages on standard input, in the order of the scan: for each the page and the slot of
// its id, and its length. Last comes `end` and the number of records, or `refused` and the answer's number.
#![tactic(auto)]

use segment_scan::held::Scan;
use std::io;
use store::{IDS_A_PAGE, PAGE_SIZE, Record, Refusal};

const MOST_BYTES: usize = 3 * PAGE_SIZE;

fn print_record(rt: &impl Print, record: Record) -> io::Result<()> {
    let page = record.id / IDS_A_PAGE;
    let slot = record.id % IDS_A_PAGE;
    let length = record.part.length;
    println!(rt; "{page} {slot} {length}")
}

fn print_end(rt: &impl Print, records: u64) -> io::Result<()> {
    println!(rt; "end {records}")
}

fn print_refused(rt: &impl Print, refusal: Refusal) -> io::Result<()> {
    let answer = u64::from(refusal);
    println!(rt; "refused {answer}")
}

// A scan holds the segment and moves on where it stands. A proved loop has to end: this one counts the records, and takes more steps than
// any scan has.
fn list(rt: &impl Print, segment: &[u8]) -> io::Result<()> {
    let mut scan = Scan::new(segment);
    for records in 0..u64::MAX {
        match scan.advance().map(|step| step.found) {
            Ok(Some(record)) => print_record(rt, record)?,
            Ok(None) => return print_end(rt, records),
            Err(refusal) => return print_refused(rt, refusal),
        }
    }
    Ok(())
}

fn main(rt: HostRuntime) -> io::Result<()> {
    // one byte more, to tell a longer input by
    let mut buffer = [0u8; MOST_BYTES + 1];
    let n = print::read_full(&mut rt.stdin(), &mut buffer)?;
    if MOST_BYTES < n {
        return print_refused(&rt, Refusal::Size);
    }
    list(&rt, &buffer[..n])
}
