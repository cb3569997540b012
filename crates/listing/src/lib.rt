// The text that `price` prints (S10), into a lent buffer.
#![tactic(auto)]

mod width; // width.rt: how many digits a number has
mod text; // text.rt: words and numbers on a page
mod lines; // lines.rt: the lines of a listing
mod plan; // plan.rt: the states that the plan reaches

ghost use Rattle.std.specs.Prelude.{◌≡◌};
ghost use Rattle.listing.specs.Width.{width_of, number_in};
ghost use Rattle.listing.specs.Listing.{listed_as, sheet_listed, table_listed, text_listed};

use ldfs::solve;
use lines::put_answer;
use model::{MAX_STATES, Outcome};
use plan::put_plan;
use sheet::fields::Indexed;
use sheet::put::Page;
use text::put_digits;
use width::width;

// The most bytes of line one, and of a state's line: `max_line_one` and `max_state_line` of specs/Listing.antt.
const MAX_LINE_ONE: usize = 71;

const MAX_STATE_LINE: usize = 105;

// The bytes that a buffer must have. No listing has more.
pub const ENOUGH: usize = MAX_LINE_ONE + MAX_STATE_LINE * MAX_STATES;

// A listing that was written: the number of its bytes, and the call's outcome (S7.1).
#[derive(Clone, Copy)]
pub struct Listing {
    pub length: usize,
    pub outcome: Outcome,
}

// Works a sheet with the largest budget (S10.1), and writes its listing (S10.2 to S10.4) at the beginning of `out`. A buffer of fewer than
// `ENOUGH` bytes is too short: there is no listing then, nothing is worked, and nothing written.
pub fn list(sheet: &mut [u8], table: &mut [u32], out: &mut [u8]) -> Option<Listing>
    ensures answer { result ≡ listed_as sheet.old table.old out.old }
    ensures sheet { sheet.new ≡ sheet_listed sheet.old table.old out.old }
    ensures table { table.new ≡ table_listed sheet.old table.old out.old }
    ensures text { out.new ≡ text_listed sheet.old table.old out.old }
{
    if out.len() < ENOUGH {
        return None;
    }
    let a = solve(sheet, table, u64::MAX);
    let mut page = Page::new(out);
    put_answer(&mut page, a);
    if let Outcome::Settled = a.outcome {
        put_plan(&mut page, &Indexed::new(sheet, table));
    }
    Some(Listing {
        length: page.end,
        outcome: a.outcome,
    })
}

// Writes a number at the beginning of `out`, as a listing has it (S10.4), and answers its width (S10.10). A buffer of fewer bytes than that
// is too short, and nothing is written.
pub fn write_number(out: &mut [u8], x: u64) -> usize
    ensures width { result ≡ width_of x }
    ensures text { out.new ≡ number_in x out.old }
{
    let n = width(x);
    if n <= out.len() {
        put_digits(&mut out[..n], x);
    }
    n
}
