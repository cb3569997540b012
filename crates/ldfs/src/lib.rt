// A call on any bytes: the questions, the search on an accepted sheet, and the answer. The public `solve`.
#![tactic(auto)]

ghost use Rattle.std.specs.Prelude.{◌≡◌, length};
ghost use Rattle.model.specs.Problem.{Cell, solved};
ghost use Rattle.model.specs.Read.{problem_of, cells_of};
ghost use Rattle.model.specs.Report.{outcome_of, refused, answer_to, bytes_after, table_after};
ghost use Rattle.sheet.specs.Sheet.{Sheet};
ghost use Rattle.search.specs.Did.{Workable};
ghost use Rattle.ldfs.specs.Made.{Finished, served_answer, served_bytes, filled_table};

use model::refusal::Question;
use model::{Answer, LONG_CEILING, MAX_STATES, Outcome};
use questions::ask;
use search::passes::work;
use sheet::fields::Indexed;

// The answer of a call with a budget that is refused by a question's number.
pub fn refusal(n: u32, budget: u64) -> Answer
    ensures { result ≡ refused budget n }
{
    Answer {
        outcome: Outcome::Refused(n),
        price: 0,
        passes: 0,
        raises: 0,
        budget,
    }
}

// Settled where the start is marked below the ceiling, none where it is marked above it, over where it is marked at it, else stopped.
fn outcome(marked: bool, price: u64) -> Outcome
    ensures { (c : Cell) → marked ≡ solved c → price ≡ c.value → result ≡ outcome_of c }
{
    if marked {
        if price < LONG_CEILING {
            Outcome::Settled
        } else if LONG_CEILING < price {
            Outcome::None
        } else {
            Outcome::Over
        }
    } else {
        Outcome::Stopped
    }
}

// The work of a call on an accepted sheet, and its answer.
fn finish(sheet: &mut [u8], table: &[u32], budget: u64) -> Answer
    requires in_place { Sheet sheet.old table.now (problem_of sheet.old) (cells_of sheet.old) }
    requires workable { Workable sheet.old }
    ensures { Finished sheet.old sheet.new result budget }
{
    let start = Indexed::new(sheet, table).start();
    let w = work(sheet, table, start, budget);
    let worked = Indexed::new(sheet, table);
    let price = u64::from(worked.value(start));
    Answer {
        outcome: outcome(worked.is_solved(start), price),
        price,
        passes: w.begun,
        raises: w.raises,
        budget,
    }
}

// Works any bytes as a sheet, with any table and any budget, as `solve` does under the limit of states that the table serves, but the
// entries past an accepted sheet's last state stay as they are: for a table that is known to be zero it is `solve` without the clearing,
// and a short one does for a sheet of few states.
pub fn solve_zeroed(sheet: &mut [u8], table: &mut [u32], budget: u64) -> Answer
    ensures answer { result ≡ served_answer sheet.old table.old budget }
    ensures sheet { sheet.new ≡ served_bytes sheet.old table.old budget }
    ensures table { table.new ≡ filled_table sheet.old table.old budget }
{
    match ask(sheet, table) {
        Err(by) => refusal(by.number(), budget),
        Ok(()) => {
            if budget == 0 {
                table.fill(0);
                refusal(Question::Budget.number(), budget)
            } else {
                finish(sheet, table, budget)
            }
        }
    }
}

// Works any bytes as a sheet, with any table and any budget. What it answers, and what it leaves in the sheet and in the table, is what
// the questions (S4), the procedure (S6) and S5, S7 give: for every input, refused or not.
pub fn solve(sheet: &mut [u8], table: &mut [u32], budget: u64) -> Answer
    ensures answer { result ≡ answer_to sheet.old (length table.old) budget }
    ensures sheet { sheet.new ≡ bytes_after sheet.old (length table.old) budget }
    ensures table { table.new ≡ table_after sheet.old table.old budget }
{
    if table.len() < MAX_STATES {
        return refusal(Question::Room.number(), budget);
    }
    table.fill(0);
    solve_zeroed(sheet, table, budget)
}
