// Little-endian numbers at an offset. The compiler makes one load, or one store, of each.
ghost use Rattle.std.specs.Prelude.{◌≡◌, ◌+◌, ◌≤◌, length};
ghost use Rattle.store.specs.Numbers.{cut, put, le, to_le};

// The number of eight bytes at `at`, the lowest first.
pub fn get_u64_le(bytes: &[u8], at: usize) -> usize
    requires { at + 8 ≤ length bytes.now }
    ensures { result ≡ le (cut bytes.now at 8) }
{
    usize::from_le_bytes(*bytes[at..at + 8].as_array().unwrap())
}

// The eight bytes of v to `at`, the lowest first.
pub fn put_u64_le(bytes: &mut [u8], at: usize, v: usize)
    requires { at + 8 ≤ length bytes.old }
    ensures { bytes.new ≡ put bytes.old at (to_le 8 v) }
{
    bytes[at..at + 8].copy_from_slice(&v.to_le_bytes());
}
