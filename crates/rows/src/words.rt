// Words and numbers on standard output. Where a write fails, what it was to write is missing there, and nothing more is done about it.

// A word as it stands.
pub(crate) fn word(rt: &impl Print, text: &[u8]) {
    let _ = rt.write_all(text);
}

// A space, and a number in decimal.
pub(crate) fn number(rt: &impl Print, x: u64) {
    let _ = print!(rt; " {x}");
}

// What is printed where the text of the cases has a slip. No expected line has this word.
pub(crate) fn slip(rt: &impl Print) {
    word(rt, b" slip\n");
}
