// A case: a call of `check` or of `solve` under its options, and its line.
use super::answers::{asked, worked};
use super::bytes::Sheet;
use super::table::{show, spoil, tally};
use super::text::Call;
use super::words::{number, slip, word};
use super::{LONGEST, MOST};
use model::MAX_STATES;
use std::ops::Range;

// What the next case is run with: its budget, the most bytes of the sheet, the table's entries, unless its line does not speak of the
// table, and which of the entries are printed.
#[derive(Drop)]
pub(crate) struct Options {
    pub(crate) budget: u64,
    pub(crate) bytes: usize,
    pub(crate) entries: Option<usize>,
    pub(crate) shown: Range<usize>,
}

// The options of a case that has none.
impl Default for Options {
    fn default() -> Options {
        Options {
            budget: u64::MAX,
            bytes: MOST,
            entries: None,
            shown: 0..0,
        }
    }
}

// The call, on as many bytes and with as many entries as the options say. It is a slip where there are fewer. The bytes are kept for a call
// that may change them, and only for that: to copy them takes longer than most checks.
fn run_call(
    rt: &impl Print,
    call: Call,
    sheet: &mut Sheet,
    table: &mut [u32; LONGEST],
    options: &Options,
) {
    let n = sheet.len.min(options.bytes);
    let size = options.entries.unwrap_or(MAX_STATES);
    let (Some(bytes), Some(entries)) = (sheet.buffer.get_mut(..n), table.get_mut(..size)) else {
        slip(rt);
        return;
    };
    match call {
        Call::Check => asked(rt, bytes, entries),
        Call::Solve => {
            let mut before = [0; MOST];
            before[..n].copy_from_slice(bytes);
            worked(rt, bytes, entries, options.budget, &before);
        }
    }
}

// A case on a sheet, or on fewer of its bytes: its line behind its label.
pub(crate) fn case(rt: &impl Print, call: Call, sheet: &mut Sheet, options: Options) {
    let mut table = [0; LONGEST];
    spoil(&mut table);
    let entries = options.entries;
    if let Some(size) = entries {
        word(rt, b"-table");
        number(rt, size as u64);
    }
    run_call(rt, call, sheet, &mut table, &options);
    show(rt, &table, options.shown);
    if let Some(size) = entries {
        tally(rt, &table, size);
    }
    word(rt, b"\n");
}
