// A line of a trace: "a letter and decimal numbers, with one blank between them".
ghost use Rattle.std.specs.Prelude.{◌≤◌, length, IfSome};

fn digit_of(b: u8) -> Option<u64> {
    match b {
        b'0'..=b'9' => Some(u64::from(b - b'0')),
        _ => None,
    }
}

// The number with one byte more, a digit; where it would pass 2^64 - 1, that, and also where the byte is no digit.
fn with_digit(value: u64, b: u8) -> u64 {
    match digit_of(b) {
        Some(digit) => value.saturating_mul(10).saturating_add(digit),
        None => u64::MAX,
    }
}

// A number on its way: the blanks passed, and its value so far.
#[derive(Clone, Copy)]
struct Reading {
    blanks: u64,
    value: u64,
}

// The number after so many blanks, with one byte more of the line.
fn taken(r: Reading, blanks: u64, b: u8) -> Reading {
    if b == b' ' {
        return Reading {
            blanks: r.blanks.wrapping_add(1),
            ..r
        };
    }
    if r.blanks != blanks {
        return r;
    }
    Reading {
        value: with_digit(r.value, b),
        ..r
    }
}

// The k-th number, counted from 1; 0 where there are fewer.
pub fn number(text: &[u8], k: u64) -> u64 {
    let mut r = Reading {
        blanks: 0,
        value: 0,
    };
    for b in text {
        r = taken(r, k, *b);
    }
    r.value
}

// How many numbers there are with one byte more: at most eight, and none for a line that is not understood.
fn counted(n: u64, b: u8) -> Option<u64> {
    match b {
        b' ' if n < 8 => Some(n + 1),
        b'0'..=b'9' if n != 0 => Some(n),
        _ => None,
    }
}

pub fn count(text: &[u8]) -> Option<u64> {
    let mut n = 0;
    for b in text.iter().skip(1) {
        n = counted(n, *b)?;
    }
    Some(n)
}

pub fn letter(text: &[u8]) -> Option<u8> {
    text.first().copied()
}

// How many numbers stand before the five of the result, where the letter is of a call.
pub fn arguments_of(letter: u8) -> Option<u8>
    ensures { IfSome result (λ n. n ≤ 3) }
{
    match letter {
        b'N' => Some(0),
        b'A' | b'R' | b'E' => Some(1),
        b'I' | b'Z' => Some(2),
        b'W' => Some(3),
        _ => None,
    }
}

// Whether these five numbers stand after so many others.
pub fn has(text: &[u8], after: u8, five: &[u64; 5]) -> bool {
    let first = u64::from(after) + 1;
    (first..first + 5)
        .zip(five)
        .all(|(k, n)| number(text, k) == *n)
}

// Where the line that begins at `at` ends: at the next line feed, or with the text.
pub fn line_end(text: &[u8], at: usize) -> usize
    requires { at ≤ length text.now }
    ensures { (at ≤ result) × (result ≤ length text.now) }
{
    match text[at..].iter().position(|b| *b == b'\n') {
        Some(k) => at + k,
        None => text.len(),
    }
}

// How many bytes of the text are whole lines; of the last text all.
pub fn whole_lines(text: &[u8], last: bool) -> usize
    ensures { result ≤ length text.now }
{
    if last {
        return text.len();
    }
    match text.iter().rposition(|b| *b == b'\n') {
        Some(k) => k + 1,
        None => 0,
    }
}
