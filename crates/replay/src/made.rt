// The bytes that a trace names by a seed or a number, and the digests that it is compared by.
ghost use Rattle.std.specs.Prelude.{◌<◌};

// "Byte k of a record is (seed + 7k + k / 256) mod 256".
pub fn record(bytes: &mut [u8], seed: u64) {
    let s = (seed % 256) as usize;
    for (k, byte) in bytes.iter_mut().enumerate() {
        *byte = ((s + k % 256 * 7 + k / 256 % 256) % 256) as u8;
    }
}

// The bytes of a number, the lowest first, over all of these.
fn digits(bytes: &mut [u8], value: u64) {
    let mut left = value;
    for byte in bytes.iter_mut() {
        *byte = (left % 256) as u8;
        left /= 256;
    }
}

// Bytes set between calls, by the letter of the line that names them: a big-endian number, a little-endian one, or a record.
pub fn set(bytes: &mut [u8], letter: u8, value: u64) {
    match letter {
        b'B' => {
            digits(bytes, value);
            bytes.reverse();
        }
        b'V' => digits(bytes, value),
        _ => record(bytes, value),
    }
}

// The digest with one number more: "(31 × digest + b + 1) mod 4,294,967,291".
fn fold(digest: u64, number: u64) -> u64
    requires { digest < 4294967291 }
    ensures { result < 4294967291 }
{
    (digest * 31 + number % 4294967291 + 1) % 4294967291
}

pub fn digest(bytes: &[u8]) -> u64 {
    let mut d: u64 = 0;
    for b in bytes {
        d = fold(d, u64::from(*b));
    }
    d
}

// With a record of a scan more: its id, offset and length.
pub fn fold_record(digest: u64, id: u64, offset: u64, length: u64) -> u64 {
    fold(fold(fold(digest % 4294967291, id), offset), length)
}
