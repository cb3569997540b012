// Writing: the listing on standard output, and what is said on standard error.
use crate::words::words;
use listing::write_number;
use model::Outcome;
use std::io::{Cursor, Write};
use std::{io, str};

// The bytes that the text of any error has room in: a reason of at most 256 bytes, and the error's number behind it.
const ROOM: usize = 320;

// Says on standard error why a call failed, as the C library words it: an error's own text has its number behind that, which is left out.
fn reason(errors: &impl Print, error: &io::Error) {
    let mut text = Cursor::new([0u8; ROOM]);
    let _ = write!(text, "{error}");
    let bytes = text.into_inner();
    let text = str::from_utf8(&bytes).unwrap_or("");
    let why = match text.split_once(" (os error ") {
        Some((why, _)) => why,
        None => text.trim_end_matches('\0'),
    };
    let _ = errors.write_all(why.as_bytes());
}

// Says on standard error what failed and why (S10.6).
pub(crate) fn fail(errors: &impl Print, what: &[u8], error: &io::Error) {
    let _ = errors.write_all(b"price: ");
    let _ = errors.write_all(what);
    let _ = errors.write_all(b": ");
    reason(errors, error);
    let _ = errors.write_all(b"\n");
}

// Says why standard output could not be written, unless all of it was (S10.6).
pub(crate) fn fail_unless(errors: &impl Print, written: io::Result<()>) {
    if let Err(error) = written {
        fail(errors, b"standard output", &error);
    }
}

// Writes a listing on standard output, or says why it cannot (S10.2, S10.6).
pub(crate) fn write(output: &impl Print, errors: &impl Print, text: &[u8]) {
    fail_unless(errors, output.write_all(text));
}

// Writes a number as a listing has it (S10.4). No number has more digits than the buffer has bytes (S10.10).
fn write_decimal(to: &impl Print, x: u64) -> io::Result<()> {
    let mut text = [0u8; 20];
    let n = write_number(&mut text, x);
    to.write_all(&text[..n])
}

// Explains a refusal on standard error (S10.5), of a sheet whose first byte is `tag`; no other outcome needs it.
pub(crate) fn explain(errors: &impl Print, o: Outcome, tag: u8) {
    if let Outcome::Refused(n) = o {
        let _ = errors.write_all(b"price: refused ");
        let _ = write_decimal(errors, u64::from(n));
        let _ = words(errors, n, tag);
    }
}
