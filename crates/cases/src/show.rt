// Each call with what it answers, and what a page's header says afterwards.
// Segment and inventory are lent as C lends them, and answers are C's numbers.
use layout::header::Header;
use print::{end_line, named, say};
use std::io;
use store::{IDS_A_PAGE, PAGE_SIZE};

// A line of a case: n bytes go in, or to the record (1,0); a record is erased or read; the page at an offset is shown; a scan; a byte is
// set by hand.
#[derive(Clone, Copy)]
pub enum Line {
    Insert(usize),
    Write(usize),
    Erase(u64),
    Read(u64),
    Page(usize),
    Scan,
    Set { offset: u64, byte: u8 },
}

fn print_insert(rt: &impl Print, length: usize, answer: u64, made: u64) -> io::Result<()> {
    print!(rt; "  insert {length}: {answer}")?;
    if answer == 0 {
        say(rt, b" at ")?;
        print::id(rt, made)?;
    }
    end_line(rt)
}

// The first `length` of these bytes as a new record.
fn insert_first(
    rt: &impl Print,
    segment: &mut [u8],
    inventory: &mut [u8],
    bytes: &[u8],
    length: usize,
) -> io::Result<()> {
    let n = length.min(bytes.len());
    let mut made: u64 = 0;
    let answer = hekatosuy::hk_insert_record(segment, inventory, &bytes[0..n], &mut made);
    print_insert(rt, n, answer, made)
}

// At most 16,365 bytes, of which none is 0.
fn insert(
    rt: &impl Print,
    segment: &mut [u8],
    inventory: &mut [u8],
    length: usize,
) -> io::Result<()> {
    let bytes = [7u8; 16365];
    insert_first(rt, segment, inventory, &bytes, length)
}

fn print_answer(rt: &impl Print, name: &[u8], i: u64, answer: u64) -> io::Result<()> {
    say(rt, name)?;
    print::id(rt, i)?;
    named(rt, b": ", answer)
}

fn write_first(
    rt: &impl Print,
    segment: &mut [u8],
    inventory: &mut [u8],
    i: u64,
    bytes: &[u8],
    length: usize,
) -> io::Result<()> {
    let n = length.min(bytes.len());
    let answer = hekatosuy::hk_write_record(segment, inventory, i, &bytes[0..n]);
    named(rt, b"  write ", n as u64)?;
    print_answer(rt, b" to ", i, answer)?;
    end_line(rt)
}

fn write(
    rt: &impl Print,
    segment: &mut [u8],
    inventory: &mut [u8],
    i: u64,
    length: usize,
) -> io::Result<()> {
    let bytes = [8u8; 16365];
    write_first(rt, segment, inventory, i, &bytes, length)
}

fn erase(rt: &impl Print, segment: &mut [u8], inventory: &mut [u8], i: u64) -> io::Result<()> {
    let answer = hekatosuy::hk_erase_record(segment, inventory, i);
    print_answer(rt, b"  erase ", i, answer)?;
    end_line(rt)
}

// Where a record lies: its page, its offset on it, and its length.
fn get(rt: &impl Print, segment: &[u8], i: u64) -> io::Result<()> {
    let mut offset: u64 = 0;
    let mut length: u64 = 0;
    let answer = hekatosuy::hk_get_record(segment, i, &mut offset, &mut length);
    print_answer(rt, b"  read ", i, answer)?;
    let page = offset / PAGE_SIZE as u64;
    let at = offset % PAGE_SIZE as u64;
    println!(rt; " on page {page} at {at} of {length}")
}

fn print_header(rt: &impl Print, page: &[u8]) -> io::Result<()> {
    let Some(page) = page.as_array() else {
        return Ok(());
    };
    let Header {
        count,
        first,
        start,
        space,
    } = Header::of(page);
    println!(rt; "  count {count}, first free {first}, data start {start}, free {space}")
}

// The header of the page that begins at an offset.
fn page(rt: &impl Print, segment: &[u8], offset: usize) -> io::Result<()> {
    let rest = &segment[offset.min(segment.len())..];
    print_header(rt, &rest[..PAGE_SIZE.min(rest.len())])
}

// A step of a scan from a position; the next position.
pub fn step(rt: &impl Print, segment: &[u8], from: u64) -> io::Result<u64> {
    let mut position = from;
    let mut found: u64 = 0;
    let mut id: u64 = 0;
    let mut offset: u64 = 0;
    let mut length: u64 = 0;
    let answer = hekatosuy::hk_scan_step(
        segment,
        &mut position,
        &mut found,
        &mut id,
        &mut offset,
        &mut length,
    );
    named(rt, b" ", answer)?;
    if found == 1 {
        say(rt, b" ")?;
        print::id(rt, id)?;
    }
    Ok(position)
}

// The first five steps of a scan.
fn scan(rt: &impl Print, segment: &[u8]) -> io::Result<()> {
    say(rt, b"  scan:")?;
    let second = step(rt, segment, 0)?;
    let third = step(rt, segment, second)?;
    let fourth = step(rt, segment, third)?;
    let fifth = step(rt, segment, fourth)?;
    step(rt, segment, fifth)?;
    end_line(rt)
}

// The byte at an offset, set by hand.
fn set_byte(rt: &impl Print, segment: &mut [u8], offset: u64, byte: u8) -> io::Result<()> {
    if segment.len() as u64 <= offset {
        return Ok(());
    }
    segment[offset as usize] = byte;
    let at = offset % PAGE_SIZE as u64;
    let page = offset / PAGE_SIZE as u64;
    println!(rt; "  byte {at} of page {page} becomes {byte}")
}

fn perform(
    rt: &impl Print,
    segment: &mut [u8],
    inventory: &mut [u8],
    line: Line,
) -> io::Result<()> {
    match line {
        Line::Insert(n) => insert(rt, segment, inventory, n),
        Line::Write(n) => write(rt, segment, inventory, IDS_A_PAGE as u64, n),
        Line::Erase(id) => erase(rt, segment, inventory, id),
        Line::Read(id) => get(rt, segment, id),
        Line::Page(offset) => page(rt, segment, offset),
        Line::Scan => scan(rt, segment),
        Line::Set { offset, byte } => set_byte(rt, segment, offset, byte),
    }
}

pub fn play(
    rt: &impl Print,
    segment: &mut [u8],
    inventory: &mut [u8],
    lines: &[Line],
) -> io::Result<()> {
    for line in lines {
        perform(rt, segment, inventory, *line)?;
    }
    Ok(())
}
