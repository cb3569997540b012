// Prints numbers of every width through the compiled code: each power of ten that fits 64 bits, the numbers beside it, and the largest. A
// line is a number as the standard library prints it, its width (S10.10), and a buffer of twenty dots with the number written into it, as
// a listing has it (S10.4). The last line is of a buffer that is one byte too short. The powers are found by multiplying, so nothing here
// rests on the table of widths.
#![tactic(auto)]

use listing::write_number;

// A number's line, with a buffer to write it into. Where a write fails, its part of the line is missing.
fn line(rt: &impl Print, x: u64, out: &mut [u8]) {
    let n = write_number(out, x);
    let _ = print!(rt; "{x} {n} ");
    let _ = rt.write_all(out);
    let _ = rt.write_all(b"\n");
}

// A number's line, with a buffer that is long enough for every number.
fn show(rt: &impl Print, x: u64) {
    let mut out = [46u8; 20];
    line(rt, x, &mut out);
}

// The lines of a number and of those beside it.
fn around(rt: &impl Print, x: u64) {
    if 0 < x {
        show(rt, x - 1);
    }
    show(rt, x);
    if x < u64::MAX {
        show(rt, x + 1);
    }
}

// The lines of the powers of ten, and of the largest number.
fn main(rt: HostRuntime) {
    let mut power: u64 = 1;
    around(&rt, power);
    while let Some(next) = power.checked_mul(10) {
        power = next;
        around(&rt, power);
    }
    show(&rt, u64::MAX);
    let mut short = [46u8; 19];
    line(&rt, u64::MAX, &mut short);
}
