// The index table before a call and after it.
use super::LONGEST;
use super::words::{number, word};
use std::ops::Range;

// The garbage of an entry: 7, 8, 9 and so on.
fn garbage(i: usize) -> u32 {
    (i % LONGEST) as u32 + 7
}

// Fills a table with garbage.
pub(crate) fn spoil(table: &mut [u32; LONGEST]) {
    for (i, entry) in table.iter_mut().enumerate() {
        *entry = garbage(i);
    }
}

// Prints the table's entries of a range, as far as there are any.
pub(crate) fn show(rt: &impl Print, table: &[u32; LONGEST], shown: Range<usize>) {
    for &entry in table.iter().take(shown.end).skip(shown.start) {
        number(rt, u64::from(entry));
    }
}

// Prints how many of the first `size` entries are the garbage that stood there, and how many are 0, unless the table has fewer.
pub(crate) fn tally(rt: &impl Print, table: &[u32; LONGEST], size: usize) {
    if let Some(entries) = table.get(..size) {
        let mut kept: u64 = 0;
        let mut zeros: u64 = 0;
        for (i, entry) in entries.iter().enumerate() {
            if *entry == garbage(i) {
                kept += 1;
            }
            if *entry == 0 {
                zeros += 1;
            }
        }
        word(rt, b" kept");
        number(rt, kept);
        word(rt, b" zeros");
        number(rt, zeros);
    }
}
