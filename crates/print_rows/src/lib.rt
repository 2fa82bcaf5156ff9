// The rows of a segment and what a call answered, in print. Of output the contracts say what those of `print` do: each function is safe and ends.
#![tactic(auto)]

use print::{end_line, say};
use segment_scan::held::Scan;
use std::io;
use store::{Record, Refusal};

// More records than a demonstration has: a proved loop has to end.
const MOST_LISTED: usize = 1000;

fn listed(rt: &impl Print, record: Record) -> io::Result<()> {
    say(rt, b"  ")?;
    print::id(rt, record.id as u64)?;
    let length = record.part.length;
    println!(rt; "  {length} bytes")
}

// Every record that a scan lists: its id and length.
pub fn list(rt: &impl Print, segment: &[u8]) -> io::Result<()> {
    let mut scan = Scan::new(segment);
    for _ in 0..MOST_LISTED {
        match scan.advance().map(|step| step.found) {
            Ok(Some(record)) => listed(rt, record)?,
            _ => break,
        }
    }
    Ok(())
}

// One record by its id: the answer, and its bytes.
pub fn read(rt: &impl Print, segment: &[u8], id: usize) -> io::Result<()> {
    let row = match segment_read::get_record(segment, id) {
        Ok(row) => row,
        Err(refusal) => {
            let answer = u64::from(refusal);
            return println!(rt; "  answer {answer}");
        }
    };
    say(rt, b"  answer 0")?;
    if !row.is_empty() {
        say(rt, b"  ")?;
        say(rt, row)?;
    }
    end_line(rt)
}

// A row that went in: its id, and its bytes.
pub fn stored(rt: &impl Print, id: u64, row: &[u8]) -> io::Result<()> {
    say(rt, b"  ")?;
    print::id(rt, id)?;
    say(rt, b"  ")?;
    say(rt, row)?;
    end_line(rt)
}

// What an erase answered.
pub fn erased(rt: &impl Print, answer: Result<usize, Refusal>) -> io::Result<()> {
    match answer {
        Ok(_) => println!(rt; "  erased"),
        Err(_) => println!(rt; "  refused"),
    }
}
