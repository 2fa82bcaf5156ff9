// A small archive: the rows of a fringe map go in by one call, are listed, one is read back, one is erased, and they are listed again. Then a
// crash damages a page, and repair keeps what can be kept and tells what it touched.
// Segment and inventory are two parameters: the calls take them as C lends them.
#![tactic(auto)]

mod map;

use map::{HEIGHT, WIDTH};
use std::io;
use store::PAGE_SIZE;

// The rows that went in, each with its id.
fn show(rt: &impl Print, rows: &[u8], ids: &[u64]) -> io::Result<()> {
    for (id, row) in ids.iter().zip(rows.chunks_exact(WIDTH)) {
        print_rows::stored(rt, *id, row)?;
    }
    Ok(())
}

fn insert_map(rt: &impl Print, segment: &mut [u8], inventory: &mut [u8]) -> io::Result<()> {
    let mut rows = [0u8; HEIGHT * WIDTH];
    map::draw(&mut rows);
    let lengths = [WIDTH as u64; HEIGHT];
    let mut ids = [0u64; HEIGHT];
    match segment_insert::insert_records(segment, inventory, &rows, &lengths, &mut ids) {
        Ok(_) => show(rt, &rows, &ids),
        Err(_) => println!(rt; "  refused"),
    }
}

fn repair(rt: &impl Print, segment: &mut [u8], inventory: &mut [u8]) -> io::Result<()> {
    let mut entries = [0u64; 30];
    match segment_repair::repair(segment, inventory, &mut entries) {
        Ok(count) => {
            println!(rt; "  changes: {count}")?;
            print_entries::list(rt, &entries, count, b"  ")
        }
        Err(_) => println!(rt; "  refused"),
    }
}

// Slot 5's entry begins at byte 52: its offset, of 4 bytes, then its length.
fn damage(segment: &mut [u8]) {
    if 55 < segment.len() {
        segment[55] = 0x40;
    }
}

fn crash(rt: &impl Print, segment: &mut [u8], inventory: &mut [u8]) -> io::Result<()> {
    println!(rt;
        "A crash: one byte of page 0's directory is overwritten, so that the row (0,5) would overlap (0,4)."
    )?;
    println!(rt; "No row of that page is handed out now (4: damaged):")?;
    damage(segment);
    print_rows::read(rt, segment, 2)?;
    println!(rt; "Repair keeps what can be kept, and tells what it touched:")?;
    repair(rt, segment, inventory)?;
    println!(rt; "The row (0,2), and the row (0,5), which is gone:")?;
    print_rows::read(rt, segment, 2)?;
    print_rows::read(rt, segment, 5)?;
    println!(rt; "A second repair finds nothing to do: the archive is sound.")?;
    repair(rt, segment, inventory)
}

fn main(rt: HostRuntime) -> io::Result<()> {
    let mut segment = [0u8; 2 * PAGE_SIZE];
    let mut inventory = [0u8; PAGE_SIZE];
    println!(rt; "An archive of two empty pages. The rows of a fringe map go in by one call:")?;
    insert_map(&rt, &mut segment, &mut inventory)?;
    println!(rt; "What a scan of the archive lists:")?;
    print_rows::list(&rt, &segment)?;
    println!(rt; "The row (0,3), read back:")?;
    print_rows::read(&rt, &segment, 3)?;
    println!(rt; "The row (0,3) is erased, and read once more (5: no such record):")?;
    let answer = segment_erase::erase_record(&mut segment, &mut inventory, 3);
    print_rows::erased(&rt, answer)?;
    print_rows::read(&rt, &segment, 3)?;
    println!(rt; "What a scan lists now:")?;
    print_rows::list(&rt, &segment)?;
    crash(&rt, &mut segment, &mut inventory)
}
