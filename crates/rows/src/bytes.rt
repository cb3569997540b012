// A sheet in a buffer.
use super::MOST;
use super::words::slip;

// A sheet: the first `len` bytes of a buffer. Behind them stands what was written there before. Where `len` is past the buffer's end, no
// call can be made on it.
#[derive(Clone, Copy)]
pub(crate) struct Sheet {
    pub(crate) buffer: [u8; MOST],
    pub(crate) len: usize,
}

impl Sheet {
    // A sheet without bytes.
    pub(crate) fn new() -> Sheet {
        Sheet {
            buffer: [0; MOST],
            len: 0,
        }
    }

    // Takes all bytes away.
    pub(crate) fn clear(&mut self) {
        self.len = 0;
    }

    // Writes a byte behind the others. It is a slip where the buffer ends before.
    fn push(&mut self, rt: &impl Print, b: u8) {
        if self.len < MOST {
            self.buffer[self.len] = b;
            self.len += 1;
        } else {
            slip(rt);
        }
    }

    // Writes bytes behind the others: at once where there is room for all of them.
    pub(crate) fn extend(&mut self, rt: &impl Print, bytes: &[u8]) {
        let end = self.len.saturating_add(bytes.len());
        if let Some(room) = self.buffer.get_mut(self.len..end) {
            room.copy_from_slice(bytes);
            self.len = end;
            return;
        }
        for &b in bytes {
            self.push(rt, b);
        }
    }

    // Writes bytes from `at` on. Where they go past the sheet's end, it is longer. It is a slip where `at` is past the end.
    pub(crate) fn overwrite(&mut self, rt: &impl Print, at: usize, bytes: &[u8]) {
        let len = self.len;
        if len < at {
            slip(rt);
        }
        self.len = at;
        self.extend(rt, bytes);
        self.len = self.len.max(len);
    }

    // Writes the last `size` bytes again, until they stand there `times` times in all. It is a slip where there are fewer bytes than that,
    // or where they reach the buffer's end.
    pub(crate) fn repeat(&mut self, rt: &impl Print, size: usize, times: usize) {
        let len = self.len;
        if size == 0 || len < size {
            slip(rt);
            return;
        }
        let end = times
            .saturating_mul(size)
            .saturating_add(len - size)
            .max(len);
        for i in len..end.min(MOST) {
            self.buffer[i] = self.buffer[i - size];
        }
        if MOST <= end {
            slip(rt);
        }
        self.len = end.min(MOST);
    }
}
