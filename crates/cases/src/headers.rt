// Document 02, Ask 3: a page that has one of seven headers and EE in all its other bytes. What each call answers on it, and its header
// afterwards.
// Segment and inventory are lent as C lends them, and answers are C's numbers.
use layout::header::Header;
use print::{end_line, named, say};
use std::io;
use store::PAGE_SIZE;

// The low one of a byte's two digits.
fn digit(rt: &impl Print, n: u8) -> io::Result<()> {
    let low = n % 16;
    print!(rt; "{low:X}")
}

// In hexadecimal.
fn hex(rt: &impl Print, bytes: &[u8]) -> io::Result<()> {
    for byte in bytes {
        say(rt, b" ")?;
        digit(rt, *byte / 16)?;
        digit(rt, *byte)?;
    }
    Ok(())
}

// The calls that name the record (0,0).
fn read(rt: &impl Print, segment: &[u8]) -> io::Result<()> {
    let mut offset: u64 = 0;
    let mut length: u64 = 0;
    let answer = hekatosuy::hk_get_record(segment, 0, &mut offset, &mut length);
    named(rt, b"  read ", answer)
}

fn write(rt: &impl Print, segment: &mut [u8], inventory: &mut [u8]) -> io::Result<()> {
    let answer = hekatosuy::hk_write_record(segment, inventory, 0, b"w");
    named(rt, b", write ", answer)
}

fn resize(rt: &impl Print, segment: &mut [u8], inventory: &mut [u8]) -> io::Result<()> {
    let answer = hekatosuy::hk_resize_record(segment, inventory, 0, 1);
    named(rt, b", resize ", answer)
}

fn erase(rt: &impl Print, segment: &mut [u8], inventory: &mut [u8]) -> io::Result<()> {
    let answer = hekatosuy::hk_erase_record(segment, inventory, 0);
    named(rt, b", erase ", answer)
}

fn insert(
    rt: &impl Print,
    segment: &mut [u8],
    inventory: &mut [u8],
    record: &[u8],
) -> io::Result<()> {
    let mut id: u64 = 0;
    let answer = hekatosuy::hk_insert_record(segment, inventory, record, &mut id);
    let length = record.len();
    print!(rt; ", insert {length} {answer}")
}

// Each of them, the scan's first step, and a record of 16,365 bytes before one of 3.
fn calls(rt: &impl Print, segment: &mut [u8], inventory: &mut [u8]) -> io::Result<()> {
    let longer = [7u8; 16365];
    read(rt, segment)?;
    write(rt, segment, inventory)?;
    resize(rt, segment, inventory)?;
    erase(rt, segment, inventory)?;
    say(rt, b", scan")?;
    crate::show::step(rt, segment, 0)?;
    insert(rt, segment, inventory, &longer)?;
    insert(rt, segment, inventory, b"row")?;
    end_line(rt)
}

// A page of count 0 with the rest of its header.
fn row(rt: &impl Print, first: usize, start: usize, space: usize) -> io::Result<()> {
    let mut segment = [0xEEu8; PAGE_SIZE];
    let mut inventory = [0u8; PAGE_SIZE];
    Header {
        count: 0,
        first,
        start,
        space,
    }
    .write(&mut segment);
    say(rt, b"header")?;
    hex(rt, &segment[0..12])?;
    end_line(rt)?;
    calls(rt, &mut segment, &mut inventory)?;
    say(rt, b"  then")?;
    hex(rt, &segment[0..12])?;
    end_line(rt)
}

pub fn table(rt: &impl Print) -> io::Result<()> {
    println!(rt; "one page with each of seven headers")?;
    row(rt, 0, 0, 0)?;
    row(rt, 0, 16384, 16372)?;
    row(rt, 3, 16372, 16336)?;
    row(rt, 0, 16000, 16372)?;
    row(rt, 0, 16384, 0)?;
    row(rt, 1, 0, 0)?;
    row(rt, 0, 0, 1)
}
