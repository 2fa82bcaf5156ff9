// The file's format: "Each record has a two-byte mark, 52 54, then mirror (u32), reading (u16), row (u16), length (u16), all
// big-endian, then the bytes." It is read here and nowhere else.
ghost use Rattle.std.specs.Prelude.{◌≡◌, ◌≤◌, length, drop};
ghost use Rattle.exchange.specs.Exchange.{parse};
ghost use Rattle.exchange.specs.Words.{follows, Lies, fault_of, format_no};

// What stands before a record's data: mark, mirror, reading, row and length. What the file has beside the store's record: mark and length.
pub const BEFORE: usize = 12;

pub const AROUND: usize = 4;

// The most data that a record has.
const LONGEST_DATA: usize = 16356;

// A record of the file: mirror, reading and row as one number, and the part of the file that is its data.
#[derive(Clone, Copy)]
pub struct Record {
    pub head: usize,
    pub data: usize,
    pub end: usize,
}

// What is wrong with a file.
#[derive(Clone, Copy)]
pub enum Fault {
    Short,
    Mark,
    Long,
}

// The record at a place of the file, none at its end; or what is wrong there: "13 SHORT when fewer than 12 bytes are left, 12 MARK for
// another mark, 3 for a length above 16,356, 13 again when the data is cut off".
pub fn record_at(file: &[u8], at: usize) -> Result<Option<Record>, Fault>
    requires { at ≤ length file.now }
    ensures { (parse (drop at file.now) ≡ follows file.now result) × Lies file.now at result }
{
    let left = file.len() - at;
    if left == 0 {
        return Ok(None);
    }
    if left < BEFORE {
        return Err(Fault::Short);
    }
    if file[at] != 0x52 {
        return Err(Fault::Mark);
    }
    if file[at + 1] != 0x54 {
        return Err(Fault::Mark);
    }
    let length = layout::get_u16(file, at + 10);
    if LONGEST_DATA < length {
        return Err(Fault::Long);
    }
    if left - BEFORE < length {
        return Err(Fault::Short);
    }
    let data = at + BEFORE;
    Ok(Some(Record {
        head: layout::get_u64(file, at + 2),
        data,
        end: data + length,
    }))
}

// "Import reads the file through before inserting anything".
pub fn read_through(file: &[u8]) -> Result<(), Fault>
    ensures { format_no result ≡ fault_of (parse file.now) }
{
    let mut at = 0;
    while let Some(record) = record_at(file, at)? {
        at = record.end;
    }
    Ok(())
}
