// The questions of S4 put to a sheet's bytes, and the index table.
#![tactic(auto)]

mod fields; // fields.rt: questions 4 and 10
pub mod states; // states.rt: questions 5 to 8

ghost use Rattle.std.specs.Prelude.{◌≡◌, true, ◌++◌, ◌-◌, ◌<◌, ◌≤◌, OnOk, length, take, replicate};
ghost use Rattle.model.specs.Problem.{states};
ghost use Rattle.model.specs.Format.{head_size};
ghost use Rattle.model.specs.Read.{problem_of, cells_of};
ghost use Rattle.model.specs.Limits.{max_states};
ghost use Rattle.model.specs.Questions.{question3, question5, finding_questions, mark_questions, state_questions, field_questions};
ghost use Rattle.model.specs.Questions.{sheet_questions_under, first_no, sheet_refusal};
ghost use Rattle.layout.specs.Shape.{Inside};
ghost use Rattle.model.specs.Report.{checked_table};
ghost use Rattle.questions.specs.Put.{findings_by};
ghost use Rattle.questions.specs.Table.{indexed_before, served_by, served_refusal, asked_table};
ghost use Rattle.questions.specs.Verdicts.{verdict};

use fields::read_fields;
use model::refusal::{Question, Refusal};
use model::{MAX_BYTES, MAX_STATES, MIN_BYTES, format};
use sheet::fields::Indexed;
use sheet::numbers::get16;
use states::{in_order, in_range, mark_in_order, value_under};

// Question 3 (S4.3) under a limit of states: is the head in place, with the tag that is wanted, and its kind, its number of states and its
// start in their ranges?
fn head_in_place(s: &[u8], wanted: u8, limit: usize) -> bool
    requires { 8 ≤ length s.now }
    ensures { result ≡ question3 wanted limit s.now }
{
    if s[0] != wanted || u32::from(get16(s, format::LENGTH_IN)) != format::HEAD_LENGTH {
        return false;
    }
    if s[format::KIND_IN] > format::WHOLE {
        return false;
    }
    let n = get16(s, format::STATES_IN);
    if n < 1 || usize::from(n) > limit {
        return false;
    }
    get16(s, format::START_IN) < n
}

// Questions 5 and 6 of a sheet that is in place: refused by the first whose answer is no. It is asked that findings are above their
// junction, unless the sheet is a draft.
pub fn ask_findings(sheet: &Indexed<'_>, above: bool) -> Result<(), Refusal>
    ensures { result ≡ verdict (first_no (finding_questions (problem_of sheet.now) (cells_of sheet.now)
        (λ _. findings_by above (problem_of sheet.now)))) }
{
    if !(0..sheet.states()).all(|s| in_range(sheet, s)) {
        return Err(Question::Ranges.into());
    }
    if !(0..sheet.states()).all(|s| in_order(sheet, s, above)) {
        return Err(Question::Findings.into());
    }
    Ok(())
}

// Questions 7 and 8 of a sheet whose costs and marks are in range and whose findings are stages, likewise.
pub fn ask_marks(sheet: &Indexed<'_>) -> Result<(), Refusal>
    requires { Inside (problem_of sheet.now) × (question5 (problem_of sheet.now) (cells_of sheet.now) ≡ true) }
    ensures { result ≡ verdict (first_no (mark_questions (problem_of sheet.now) (cells_of sheet.now))) }
{
    if !(0..sheet.states()).all(|s| value_under(sheet, s)) {
        return Err(Question::Values.into());
    }
    if !(0..sheet.states()).all(|s| mark_in_order(sheet, s)) {
        return Err(Question::Marks.into());
    }
    Ok(())
}

// Questions 5 to 8 of an ordinary sheet that is in place, likewise.
fn ask_states(sheet: &Indexed<'_>) -> Result<(), Refusal>
    ensures { result ≡ verdict (first_no (state_questions (problem_of sheet.now) (cells_of sheet.now))) }
{
    ask_findings(sheet, true)?;
    ask_marks(sheet)
}

// The questions about the sheet's fields, by the tag that is wanted of its head and a limit of states: refused by the first whose answer is
// no. Where there is none, the table begins with the states' offsets.
pub fn ask_fields(sheet: &[u8], table: &mut [u32], wanted: u8, limit: usize) -> Result<(), Refusal>
    requires { (limit ≤ length table.old) × (limit ≤ max_states) }
    ensures value { result ≡ verdict (first_no (field_questions wanted limit sheet.now)) }
    ensures table_after { OnOk result (table.new ≡ indexed_before sheet.now table.old) }
{
    if sheet.len() < MIN_BYTES || sheet.len() > MAX_BYTES {
        return Err(Question::Size.into());
    }
    if !head_in_place(sheet, wanted, limit) {
        return Err(Question::Head.into());
    }
    read_fields(sheet, table, count_of(sheet))
}

// The number of states of a sheet that is in place.
pub fn count_of(sheet: &[u8]) -> usize
    requires { head_size ≤ length sheet.now }
    ensures { (result ≡ states (problem_of sheet.now)) × (result < 65536) }
{
    usize::from(get16(sheet, format::STATES_IN))
}

// The questions about the sheet alone, under a limit of states: refused by the first whose answer is no. Where there is none, the table
// begins with the states' offsets.
fn ask_under(sheet: &[u8], table: &mut [u32], limit: usize) -> Result<(), Refusal>
    requires { (limit ≤ length table.old) × (limit ≤ max_states) }
    ensures value { result ≡ verdict (first_no (sheet_questions_under limit sheet.now)) }
    ensures table_after { OnOk result (table.new ≡ indexed_before sheet.now table.old) }
{
    ask_fields(sheet, table, format::HEAD_TAG, limit)?;
    ask_states(&Indexed::new(sheet, table))
}

// The entries of a table from `from` on become 0.
pub fn clear(table: &mut [u32], from: usize)
    ensures { table.new ≡ take from table.old ++ replicate (length table.old - from) 0 }
{
    if from < table.len() {
        table[from..].fill(0);
    }
}

// The limit of states that a table serves.
fn served(table: &[u32]) -> usize
    ensures { result ≡ served_by (length table.now) }
{
    table.len().min(MAX_STATES)
}

// The questions about the sheet alone put to any bytes, with any table, under the limit of states that the table serves: a table of fewer
// than `MAX_STATES` entries does for a sheet of no more states than that. The table's later content is all zero where a question is
// answered no, and when accepted it begins with the states' offsets and stays as it was past the last state.
pub fn ask(sheet: &[u8], table: &mut [u32]) -> Result<(), Refusal>
    ensures answer { result ≡ verdict (served_refusal sheet.now table.old) }
    ensures table { table.new ≡ asked_table sheet.now table.old }
{
    let asked = ask_under(sheet, table, served(table));
    if asked.is_err() {
        clear(table, 0);
    }
    asked
}

// Question 1 and these put to any bytes, with any table. The table's later content is unchanged at 1, all zero at any other, and the
// states' offsets and then zeros when accepted.
pub fn check(sheet: &[u8], table: &mut [u32]) -> Result<(), Refusal>
    ensures answer { result ≡ verdict (sheet_refusal sheet.now (length table.old)) }
    ensures table { table.new ≡ checked_table sheet.now table.old }
{
    if table.len() < MAX_STATES {
        return Err(Question::Room.into());
    }
    clear(table, 0);
    ask(sheet, table)
}
