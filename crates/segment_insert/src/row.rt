// What is inserted: a record as it is, one of zeros, or the eight bytes of a number and then others.
ghost use Rattle.std.specs.Prelude.{◌≡◌, ◌+◌, ◌++◌, ◌≤◌, ℕ, List, length};
ghost use Rattle.store.specs.Numbers.{put, to_be, zeros};

// Its bytes, how many they are, and how they are written where a page has made room for them.
pub trait Row {
    ghost bytes: { Self → List ℕ };

    fn len(&self) -> usize
        ensures { result ≡ length (bytes self.now) };

    fn put(&self, page: &mut [u8], at: usize)
        requires { at + length (bytes self.now) ≤ length page.old }
        ensures { page.new ≡ put page.old at (bytes self.now) };
}

#[derive(Clone, Copy)]
pub struct Bytes<'a> {
    pub bytes: &'a [u8],
}

impl<'a> Row for Bytes<'a> {
    ghost bytes = { λ r. r.bytes.now };

    fn len(&self) -> usize {
        self.bytes.len()
    }

    fn put(&self, page: &mut [u8], at: usize) {
        layout_runs::copy_in(page, at, self.bytes);
    }
}

#[derive(Clone, Copy)]
pub struct Zeros {
    pub size: usize,
}

impl Row for Zeros {
    ghost bytes = { λ r. zeros r.size };

    fn len(&self) -> usize {
        self.size
    }

    fn put(&self, page: &mut [u8], at: usize) {
        layout_runs::zero_fill(page, at, self.size);
    }
}

#[derive(Clone, Copy)]
pub struct Headed<'a> {
    pub head: usize,
    pub bytes: &'a [u8],
}

impl<'a> Row for Headed<'a> {
    ghost bytes = { λ r. to_be 8 r.head ++ r.bytes.now };

    fn len(&self) -> usize {
        8 + self.bytes.len()
    }

    fn put(&self, page: &mut [u8], at: usize) {
        layout::put_u64(page, at, self.head);
        layout_runs::copy_in(page, at + 8, self.bytes);
    }
}
