// Repairs a store of at most 3 pages on standard input, its inventory first and then its segment, and prints what was done: one line for
// each slot, header and inventory that changed. Last comes `sound`, or `refused` and the answer's number. The input stays as it is.
// Segment and inventory are two parameters: the calls take them as C lends them.
#![tactic(auto)]

use print::read_full;
use std::io;
use store::{PAGE_SIZE, RepairRefusal};

// "3 × (2,047 × n + 1) words always suffice."
const WORDS: usize = 3 * (2047 * 3 + 1);

// By its number.
fn refused(rt: &impl Print, refusal: RepairRefusal) -> io::Result<()> {
    match refusal {
        RepairRefusal::Size => println!(rt; "refused 1"),
        RepairRefusal::Room { .. } => println!(rt; "refused 11"),
    }
}

// What stands there after a repair, lent a list of no words: 0 exactly if it is sound.
fn check(rt: &impl Print, segment: &mut [u8], inventory: &mut [u8]) -> io::Result<()> {
    let mut none = [0u64; 0];
    match segment_repair::repair(segment, inventory, &mut none) {
        Ok(_) => println!(rt; "sound"),
        Err(refusal) => refused(rt, refusal),
    }
}

fn repair(rt: &impl Print, segment: &mut [u8], inventory: &mut [u8]) -> io::Result<()> {
    let mut entries = [0u64; WORDS];
    match segment_repair::repair(segment, inventory, &mut entries) {
        Ok(count) => {
            print_entries::list(rt, &entries, count, b"")?;
            check(rt, segment, inventory)
        }
        Err(refusal) => refused(rt, refusal),
    }
}

fn main(rt: HostRuntime) -> io::Result<()> {
    let mut input = rt.stdin();
    let mut inventory = [0u8; PAGE_SIZE];
    // three pages, and one byte more to tell a longer input by
    let mut buffer = [0u8; 49153];
    if read_full(&mut input, &mut inventory)? < PAGE_SIZE {
        return refused(&rt, RepairRefusal::Size);
    }
    let n = read_full(&mut input, &mut buffer)?;
    if 49152 < n {
        return refused(&rt, RepairRefusal::Size);
    }
    repair(&rt, &mut buffer[..n], &mut inventory)
}
