// What `check` and `solve` answer, printed.
use super::words::{number, word};
use ldfs::solve;
use model::{Answer, Outcome};
use questions::check;

// A refusal's number.
fn refused(rt: &impl Print, n: u32) {
    word(rt, b" refused");
    number(rt, u64::from(n));
}

// An outcome's word, then price, passes and raises.
fn figures(rt: &impl Print, outcome: &[u8], a: &Answer) {
    word(rt, outcome);
    number(rt, a.price);
    number(rt, a.passes);
    number(rt, a.raises);
}

// What `solve` answered, and whether a call that refused has changed a byte of the sheet.
fn answer(rt: &impl Print, a: &Answer, changed: bool) {
    match a.outcome {
        Outcome::Refused(n) => {
            refused(rt, n);
            if changed {
                word(rt, b" changed");
            }
        }
        Outcome::Settled => figures(rt, b" settled", a),
        Outcome::Over => figures(rt, b" over", a),
        Outcome::Stopped => figures(rt, b" stopped", a),
        Outcome::None => figures(rt, b" none", a),
    }
}

// Puts the questions to a sheet.
pub(crate) fn asked(rt: &impl Print, sheet: &[u8], table: &mut [u32]) {
    match check(sheet, table) {
        Ok(()) => word(rt, b" accepted"),
        Err(by) => refused(rt, by.number()),
    }
}

// Works a sheet. `before` begins with the sheet as it is now.
pub(crate) fn worked(
    rt: &impl Print,
    sheet: &mut [u8],
    table: &mut [u32],
    budget: u64,
    before: &[u8],
) {
    let a = solve(sheet, table, budget);
    answer(rt, &a, !before.starts_with(sheet));
}
