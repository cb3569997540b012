// A draft, whose findings may lie anywhere, made an ordinary sheet, and back.
#![tactic(auto)]

mod moving; // moving.rt: states renumbered
mod placing; // placing.rt: the order of placing, the places of a list

ghost use Rattle.std.specs.Prelude.{◌≡◌, true, ◌++◌, ℕ, ◌-◌, ◌<◌, ◌≤◌, OnOk, length, get_or, take, replicate};
ghost use Rattle.model.specs.Limits.{max_states};
ghost use Rattle.model.specs.Problem.{states};
ghost use Rattle.model.specs.Read.{problem_of, cells_of};
ghost use Rattle.model.specs.Questions.{question6, question6_draft, first_no};
ghost use Rattle.layout.specs.Shape.{Inside};
ghost use Rattle.questions.specs.Table.{indexed_before};
ghost use Rattle.questions.specs.Verdicts.{verdict};
ghost use Rattle.order.specs.Order.{order, inverse};
ghost use Rattle.order.specs.Asking.{question1_lent, question11, question11_back, turn_states, draft_questions, back_questions};
ghost use Rattle.order.specs.Asking.{rearrange_refusal, restore_refusal};
ghost use Rattle.order.specs.Asking.{rearranged_bytes, restored_bytes, output_given, list_given};
ghost use Rattle.order.specs.Asking.{rearranged_output, rearranged_list, rearranged_table, restored_output, restored_table};
ghost use Rattle.rearrange.specs.Turning.{Renumbers, Placed, over};

use model::refusal::{Question, Refusal};
use model::{MAX_STATES, format};
use moving::put_sheet;
use placing::{count_all, one_less, place_all, places};
use questions::{ask_fields, ask_findings, ask_marks};
use sheet::fields::Indexed;

// Questions 5, 6, 11, 7 and 8 of a draft: refused by the first whose answer is no. Where there is none, its states have been placed.
fn ask_draft(sheet: &Indexed<'_>, waits: &mut [u32], old: &mut [u32]) -> Result<(), Refusal>
    requires rooms { (states (problem_of sheet.now) ≤ length waits.old) × (states (problem_of sheet.now) ≤ length old.old) }
    requires zeros { (u : ℕ) → get_or waits.old u 0 ≡ 0 }
    ensures value { result ≡ verdict (first_no (turn_states (problem_of sheet.now) (cells_of sheet.now)
        (λ _. question6_draft (problem_of sheet.now)) (λ _. question11 (problem_of sheet.now)))) }
    ensures placed { OnOk result (Placed (problem_of sheet.now) (states (problem_of sheet.now)) old.new waits.new) }
{
    ask_findings(sheet, false)?;
    count_all(sheet, waits);
    let n = sheet.states();
    let placed = place_all(sheet, waits, old);
    if placed != n {
        return Err(Question::Circle.into());
    }
    ask_marks(sheet)
}

// The same of an ordinary sheet and a list of old numbers. Where there is none, the first entries of `new` are the list's way back.
fn ask_back(sheet: &Indexed<'_>, list: &[u32], new: &mut [u32]) -> Result<(), Refusal>
    requires rooms { (states (problem_of sheet.now) ≤ length list.now) × (states (problem_of sheet.now) ≤ length new.old) }
    requires zeros { (u : ℕ) → get_or new.old u 0 ≡ 0 }
    ensures value { result ≡ verdict (first_no (turn_states (problem_of sheet.now) (cells_of sheet.now)
        (λ _. question6 (problem_of sheet.now)) (λ _. question11_back (problem_of sheet.now) list.now))) }
    ensures inside { OnOk result (Inside (problem_of sheet.now) × Renumbers (states (problem_of sheet.now)) new.new list.now ×
        (take (states (problem_of sheet.now)) new.new ≡ inverse (take (states (problem_of sheet.now)) list.now))) }
{
    ask_findings(sheet, true)?;
    if !places(list, sheet.states(), new) {
        return Err(Question::Circle.into());
    }
    ask_marks(sheet)
}

// The list becomes the first n old numbers, and 0 behind them. With `copy_from_slice` the library for hosts would call one function more.
fn put_list(list: &mut [u32], old: &[u32], n: usize)
    requires { (n ≤ length list.old) × (n ≤ length old.now) }
    ensures { list.new ≡ take n old.now ++ replicate (length list.old - n) 0 }
{
    for k in 0..n {
        list[k] = old[k];
    }
    list[n..].fill(0);
}

// The new sheet and the list of a draft whose states have been placed.
fn put_draft(
    sheet: &Indexed<'_>,
    waits: &mut [u32],
    old: &[u32],
    output: &mut [u8],
    list: &mut [u32],
)
    requires placed { Placed (problem_of sheet.now) (states (problem_of sheet.now)) old.now waits.old }
    requires rooms { (length sheet.now ≤ length output.old) × (states (problem_of sheet.now) ≤ length list.old) }
    ensures output_after { output.new ≡ over (rearranged_bytes sheet.now) output.old }
    ensures list_after { list.new ≡ order (problem_of sheet.now) ++
        replicate (length list.old - states (problem_of sheet.now)) 0 }
{
    let n = sheet.states();
    one_less(waits, n);
    put_sheet(sheet, format::HEAD_TAG, old, waits, output);
    put_list(list, old, n);
}

// The questions about a draft put to any bytes: refused by the first whose answer is no, with output and list as they were. Where there is
// none, the new sheet and the list are written, and the table begins with the draft's offsets.
fn turn_draft(
    sheet: &[u8],
    table: &mut [u32],
    output: &mut [u8],
    list: &mut [u32],
) -> Result<(), Refusal>
    requires { (max_states ≤ length table.old) × (length sheet.now ≤ length output.old) × (max_states ≤ length list.old) }
    ensures value { result ≡ verdict (first_no (draft_questions sheet.now)) }
    ensures output_after { output.new ≡
        output_given (first_no (draft_questions sheet.now)) (rearranged_bytes sheet.now) output.old }
    ensures list_after { list.new ≡ list_given (first_no (draft_questions sheet.now)) sheet.now list.old }
    ensures table_after { OnOk result (table.new ≡ indexed_before sheet.now table.old) }
{
    ask_fields(sheet, table, format::DRAFT_TAG, MAX_STATES)?;
    let draft = Indexed::new(sheet, table);
    let mut waits = [0u32; MAX_STATES];
    let mut old = [0u32; MAX_STATES];
    ask_draft(&draft, &mut waits, &mut old)?;
    put_draft(&draft, &mut waits, &old, output, list);
    Ok(())
}

// The questions about an ordinary sheet and a list of old numbers put to any bytes: refused by the first whose answer is no, with the
// output as it was. Where there is none, the draft is written, and the table begins with the sheet's offsets.
fn turn_back(
    sheet: &[u8],
    table: &mut [u32],
    list: &[u32],
    output: &mut [u8],
) -> Result<(), Refusal>
    requires { (max_states ≤ length table.old) × (length sheet.now ≤ length output.old) × (max_states ≤ length list.now) }
    ensures value { result ≡ verdict (first_no (back_questions sheet.now list.now)) }
    ensures output_after { output.new ≡
        output_given (first_no (back_questions sheet.now list.now)) (restored_bytes sheet.now list.now) output.old }
    ensures table_after { OnOk result (table.new ≡ indexed_before sheet.now table.old) }
{
    ask_fields(sheet, table, format::HEAD_TAG, MAX_STATES)?;
    let ordinary = Indexed::new(sheet, table);
    let mut new = [0u32; MAX_STATES];
    ask_back(&ordinary, list, &mut new)?;
    put_sheet(&ordinary, format::DRAFT_TAG, &new, list, output);
    Ok(())
}

// Question 1 of both calls (S13.8): have the table and the list 4,096 entries or more, and the output as many bytes as the sheet?
#[tactic(auto, unfolding(order::specs::Asking::question1_lent, model::specs::Tests::all))]
fn has_room(sheet: &[u8], table: &[u32], output: &[u8], list: &[u32]) -> bool
    ensures { result ≡ question1_lent sheet.now (length table.now) (length output.now)
        (length list.now) }
{
    table.len() >= MAX_STATES && output.len() >= sheet.len() && list.len() >= MAX_STATES
}

// Makes a draft an ordinary sheet, in the output, and lists the old numbers of its stages (S13.5). A refusal alters neither; it leaves the
// table unchanged at 1, and all zero at any other. When accepted, the table has the draft's offsets and then zeros (S13.9, S13.10).
pub fn rearrange(
    sheet: &[u8],
    table: &mut [u32],
    output: &mut [u8],
    list: &mut [u32],
) -> Result<(), Refusal>
    ensures answer { result ≡ verdict (rearrange_refusal sheet.now (length table.old)
        (length output.old) (length list.old)) }
    ensures output { output.new ≡
        rearranged_output sheet.now table.old output.old list.old }
    ensures list { list.new ≡
        rearranged_list sheet.now table.old output.old list.old }
    ensures table { table.new ≡
        rearranged_table sheet.now table.old output.old list.old }
{
    if !has_room(sheet, table, output, list) {
        return Err(Question::Room.into());
    }
    table.fill(0);
    let turned = turn_draft(sheet, table, output, list);
    if turned.is_err() {
        table.fill(0);
    }
    turned
}

// Makes an ordinary sheet the draft that it was, in the output, by the list of old numbers (S13.6). Refusals and the table are as in
// `rearrange`.
pub fn restore(
    sheet: &[u8],
    table: &mut [u32],
    list: &[u32],
    output: &mut [u8],
) -> Result<(), Refusal>
    ensures answer { result ≡ verdict (restore_refusal sheet.now (length table.old)
        list.now (length output.old)) }
    ensures output { output.new ≡
        restored_output sheet.now table.old list.now output.old }
    ensures table { table.new ≡
        restored_table sheet.now table.old list.now output.old }
{
    if !has_room(sheet, table, output, list) {
        return Err(Question::Room.into());
    }
    table.fill(0);
    let turned = turn_back(sheet, table, list, output);
    if turned.is_err() {
        table.fill(0);
    }
    turned
}
