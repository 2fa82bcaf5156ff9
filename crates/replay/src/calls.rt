// Each call of a trace, made on the lent bytes: its answer and two numbers.
// Segment and inventory are lent as C lends them, and answers are C's numbers.
use crate::line::number;
use crate::{line, made};

#[derive(Clone, Copy)]
pub struct Reply {
    pub answer: u64,
    pub first: u64,
    pub second: u64,
}

// What is printed where no call was made.
pub const NO_CALL: Reply = Reply {
    answer: 99,
    first: 0,
    second: 0,
};

fn answered(answer: u64) -> Reply {
    Reply {
        answer,
        first: 0,
        second: 0,
    }
}

fn with_id(answer: u64, id: u64) -> Reply {
    Reply {
        answer,
        first: id,
        second: 0,
    }
}

fn insert(segment: &mut [u8], inventory: &mut [u8], record: &[u8]) -> Reply {
    let mut id: u64 = 0;
    let answer = hekatosuy::hk_insert_record(segment, inventory, record, &mut id);
    with_id(answer, id)
}

// A record of a trace's line: the id that it is written to, or none where it is new, how long it is, and by what seed it is made.
#[derive(Clone, Copy)]
struct Record {
    id: Option<u64>,
    length: u64,
    seed: u64,
}

// The record, made in `room`, is inserted or written; none where it is longer.
fn put(segment: &mut [u8], inventory: &mut [u8], room: &mut [u8], r: Record) -> Option<Reply> {
    let n = r.length as usize;
    if room.len() < n {
        return None;
    }
    made::record(&mut room[0..n], r.seed);
    let reply = match r.id {
        None => insert(segment, inventory, &room[0..n]),
        Some(id) => answered(hekatosuy::hk_write_record(segment, inventory, id, &room[0..n])),
    };
    Some(reply)
}

// "Records of `I` and `W` are at most 16,400 bytes long".
fn put_made(segment: &mut [u8], inventory: &mut [u8], r: Record) -> Option<Reply> {
    let mut room = [0u8; 16400];
    put(segment, inventory, &mut room, r)
}

fn insertion(text: &[u8]) -> Record {
    Record {
        id: None,
        length: number(text, 1),
        seed: number(text, 2),
    }
}

fn rewriting(text: &[u8]) -> Record {
    Record {
        id: Some(number(text, 1)),
        length: number(text, 2),
        seed: number(text, 3),
    }
}

fn allocate(segment: &mut [u8], inventory: &mut [u8], size: u64) -> Reply {
    let mut id: u64 = 0;
    let answer = hekatosuy::hk_allocate(segment, inventory, size, &mut id);
    with_id(answer, id)
}

fn get(segment: &[u8], id: u64) -> Reply {
    let mut offset: u64 = 0;
    let mut length: u64 = 0;
    let answer = hekatosuy::hk_get_record(segment, id, &mut offset, &mut length);
    Reply {
        answer,
        first: offset,
        second: length,
    }
}

// A scan on its way: its position, whether the last step found a record, its answer, and what it has found so far.
#[derive(Clone, Copy)]
struct Scan {
    position: u64,
    found: u64,
    answer: u64,
    records: u64,
    digest: u64,
}

fn scan_step(segment: &[u8], s: Scan) -> Scan {
    let mut position = s.position;
    let mut found: u64 = 0;
    let mut id: u64 = 0;
    let mut offset: u64 = 0;
    let mut length: u64 = 0;
    let answer = hekatosuy::hk_scan_step(
        segment,
        &mut position,
        &mut found,
        &mut id,
        &mut offset,
        &mut length,
    );
    let mut next = Scan {
        position,
        found,
        answer,
        ..s
    };
    if found == 1 {
        next.records = s.records.wrapping_add(1);
        next.digest = made::fold_record(s.digest, id, offset, length);
    }
    next
}

// To the first step without a record, over no more slots than the pages of a trace can have.
fn scan_to_end(segment: &[u8]) -> Scan {
    let mut s = Scan {
        position: 0,
        found: 1,
        answer: 0,
        records: 0,
        digest: 0,
    };
    for _ in 0..1000000 {
        if s.found != 1 {
            break;
        }
        s = scan_step(segment, s);
    }
    s
}

// "the answer is that of the step the scan ended with, and two further steps must answer 0 without a record"
fn scan_all(segment: &[u8]) -> Option<Reply> {
    let s = scan_to_end(segment);
    let once = scan_step(segment, s);
    let twice = scan_step(segment, once);
    if once.found != 0 || once.answer != 0 || twice.found != 0 || twice.answer != 0 {
        return None;
    }
    Some(Reply {
        answer: s.answer,
        first: s.records,
        second: s.digest,
    })
}

// None is what no call answers: a record longer than a trace may have, or a scan that does not stay over.
pub fn perform(segment: &mut [u8], inventory: &mut [u8], text: &[u8]) -> Option<Reply> {
    let a = number(text, 1);
    let reply = match line::letter(text)? {
        b'I' => put_made(segment, inventory, insertion(text))?,
        b'A' => allocate(segment, inventory, a),
        b'R' => get(segment, a),
        b'W' => put_made(segment, inventory, rewriting(text))?,
        b'Z' => answered(hekatosuy::hk_resize_record(segment, inventory, a, number(text, 2))),
        b'E' => answered(hekatosuy::hk_erase_record(segment, inventory, a)),
        b'N' => scan_all(segment)?,
        _ => return None,
    };
    Some(reply)
}
