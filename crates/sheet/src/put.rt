// Bytes written into a buffer, one piece behind the other.
ghost use Rattle.std.specs.Prelude.{◌≡◌, ℕ, ◌+◌, ◌*◌, ◌<◌, ◌≤◌, length, get_or};
ghost use Rattle.model.specs.Format.{bytes2, successors_bytes};
ghost use Rattle.sheet.specs.Put.{HasRoom, Appended};

// A lent buffer that bytes are written into, and the place behind what is written.
#[derive(Drop)]
pub struct Page<'a> {
    pub out: &'a mut [u8],
    pub end: usize,
}

impl<'a> Page<'a> {
    // A buffer with nothing written into it yet.
    pub fn new(out: &'a mut [u8]) -> Page<'a>
        ensures same { result.out.ghost_name ≡ out.entry.ghost_name }
        ensures bytes { result.out.now ≡ out.old }
        ensures end { result.end ≡ 0 }
    {
        Page { out, end: 0 }
    }

    // Some bytes, copied.
    pub fn bytes(&mut self, bytes: &[u8])
        requires { HasRoom self.old (length bytes.now) }
        ensures { Appended self.old self.new bytes.now }
    {
        let end = self.end + bytes.len();
        self.out[self.end..end].copy_from_slice(bytes);
        self.end = end;
    }

    // A number in two bytes.
    pub fn number(&mut self, x: u32)
        requires { (x < 65536) × HasRoom self.old 2 }
        ensures { Appended self.old self.new (bytes2 x) }
    {
        self.bytes(&(x as u16).to_be_bytes());
    }

    // The numbers of a row, two bytes each.
    pub fn row(&mut self, row: &[u32])
        requires room { HasRoom self.old (2 * length row.now) }
        requires by_index { (j : ℕ) → j < length row.now → get_or row.now j 0 < 65536 }
        ensures { Appended self.old self.new (successors_bytes row.now) }
    {
        for x in row {
            self.number(*x);
        }
    }
}
