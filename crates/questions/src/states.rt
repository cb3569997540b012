// Questions 5 to 8, put to each state of a sheet that is in place, one question after the other.
ghost use Rattle.std.specs.Prelude.{◌≡◌, true, ◌<◌, ◌≤◌, length};
ghost use Rattle.model.specs.Problem.{action_at, node_at, cell_of, states};
ghost use Rattle.model.specs.Format.{actions_of, action_offset};
ghost use Rattle.model.specs.Read.{problem_of, cells_of};
ghost use Rattle.model.specs.Questions.{apart, ascending, successors_in_order, value_under, all_solved, mark_earned, question5};
ghost use Rattle.layout.specs.Shape.{Inside};
ghost use Rattle.sheet.specs.Sheet.{action_of, IsDecision, Leads};
ghost use Rattle.questions.specs.Put.{ranges_at, count_in_range, ChosenExists, lowest_of, mark_at};

use model::{MAX_COST, NO_PLAN, format};
use sheet::actions::Action;
use sheet::fields::{Indexed, Kind};

// The number of a decision's actions, where the cost of each is in range.
fn count_in_range(sheet: &Indexed<'_>, state: usize) -> Option<usize>
    requires { IsDecision sheet.now state }
    ensures { result ≡ count_in_range (node_at (problem_of sheet.now) state) }
{
    let mut n = 0;
    for action in sheet.actions(state) {
        if !(1..=MAX_COST).contains(&action.cost()) {
            return None;
        }
        n += 1;
    }
    Some(n)
}

// Question 5 of one state. At a decision the chosen action 0 is always in range; another where it is solved and has that action.
pub(crate) fn in_range(sheet: &Indexed<'_>, state: usize) -> bool
    requires { state < states (problem_of sheet.now) }
    ensures { result ≡ ranges_at (node_at (problem_of sheet.now) state) (cell_of (cells_of sheet.now) state) }
{
    if sheet.value(state) > NO_PLAN {
        return false;
    }
    let mark = sheet.mark(state);
    if mark > format::SOLVED {
        return false;
    }
    if sheet.is_terminal(state) {
        return sheet.terminal_cost(state) <= MAX_COST;
    }
    let Some(n) = count_in_range(sheet, state) else {
        return false;
    };
    let chosen = usize::from(sheet.chosen(state));
    chosen == 0 || (mark == format::SOLVED && chosen < n)
}

// Of the successors of an action, is the first `low` or more, each of the others `step` or more above the one before it, and is each below
// `n`? Where they ascend, only the last of them is compared with `n`. A sum that its type does not hold is cut: no state has such a number.
fn ascending(action: &Action<'_>, step: usize, low: usize, n: usize) -> bool
    requires { step ≤ 1 }
    ensures { result ≡ ascending step low n (action_of action.now).successors }
{
    let mut least = low;
    let mut last = 0;
    for t in action.successors() {
        if t < least {
            return false;
        }
        least = t.saturating_add(step);
        last = t;
    }
    last < n
}

// Of the successors of each action of a state, is the first `low` or more, each of the others `step` or more above the one before it, and
// is each below `n`?
fn in_steps(sheet: &Indexed<'_>, state: usize, step: usize, low: usize, n: usize) -> bool
    requires below { state < states (problem_of sheet.now) }
    requires step_bound { step ≤ 1 }
    ensures { result ≡ successors_in_order step low n (node_at (problem_of sheet.now) state) }
{
    if sheet.is_terminal(state) {
        return true;
    }
    sheet
        .actions(state)
        .all(|action| ascending(&action, step, low, n))
}

// The lowest number that a successor of a state may have: where it is asked that they are above it, the next.
fn lowest_of(above: bool, state: usize) -> usize
    requires { state < 65536 }
    ensures { result ≡ lowest_of above state }
{
    if above { state + 1 } else { 0 }
}

// Question 6 of one state: on a worst sheet its successors ascend strictly, and on a whole one equal ones may stand side by side. The step
// is a number at each call, so that the compiler makes a loop for each kind.
pub(crate) fn in_order(sheet: &Indexed<'_>, state: usize, above: bool) -> bool
    requires { state < states (problem_of sheet.now) }
    ensures { result ≡ successors_in_order (apart (problem_of sheet.now).kind) (lowest_of above state) (states (problem_of sheet.now))
        (node_at (problem_of sheet.now) state) }
{
    let n = sheet.states();
    let low = lowest_of(above, state);
    match sheet.kind() {
        Kind::Worst => in_steps(sheet, state, 1, low, n),
        Kind::Whole => in_steps(sheet, state, 0, low, n),
    }
}

// Question 7 of one state.
pub(crate) fn value_under(sheet: &Indexed<'_>, state: usize) -> bool
    requires below { state < states (problem_of sheet.now) }
    requires inside { Inside (problem_of sheet.now) }
    ensures { result ≡ value_under (problem_of sheet.now) (cells_of sheet.now) state
        (node_at (problem_of sheet.now) state) }
{
    let value = sheet.value(state);
    if sheet.is_terminal(state) {
        return value <= sheet.terminal_cost(state);
    }
    sheet
        .actions(state)
        .all(|action| value <= sheet.price(&action).price)
}

// Are all successors of an action solved?
fn all_solved(sheet: &Indexed<'_>, action: &Action<'_>) -> bool
    requires { Leads sheet.now action.now }
    ensures { result ≡ all_solved (cells_of sheet.now) (action_of action.now).successors }
{
    action.successors().all(|t| sheet.is_solved(t))
}

// The action that is chosen at a decision.
pub fn chosen_action<'a>(sheet: &Indexed<'a>, state: usize) -> Action<'a>
    requires decision { IsDecision sheet.now state }
    requires state_in_bounds { (cell_of (cells_of sheet.now) state).chosen < length (actions_of (node_at (problem_of sheet.now) state)) }
    ensures is { action_of result ≡ action_at (actions_of (node_at (problem_of sheet.now) state))
        (cell_of (cells_of sheet.now) state).chosen }
    ensures place { (result.bytes ≡ sheet.now) ×
        (result.at ≡ action_offset (problem_of sheet.now) state (cell_of (cells_of sheet.now) state).chosen) }
{
    let chosen = usize::from(sheet.chosen(state));
    sheet.actions(state).nth(chosen).unwrap()
}

// Question 8 of one solved state: a terminal has its cost, a decision without actions none, another the price of its chosen action.
fn mark_earned(sheet: &Indexed<'_>, state: usize) -> bool
    requires below { state < states (problem_of sheet.now) }
    requires inside { Inside (problem_of sheet.now) }
    requires chosen_exists { ChosenExists (problem_of sheet.now) (cells_of sheet.now) state }
    ensures { result ≡ mark_earned (problem_of sheet.now) (cells_of sheet.now) state
        (node_at (problem_of sheet.now) state) }
{
    let value = sheet.value(state);
    if sheet.is_terminal(state) {
        return value == sheet.terminal_cost(state);
    }
    if sheet.has_action(state) {
        let action = chosen_action(sheet, state);
        value == sheet.price(&action).price && all_solved(sheet, &action)
    } else {
        value == NO_PLAN
    }
}

// Question 8 of one state.
pub(crate) fn mark_in_order(sheet: &Indexed<'_>, state: usize) -> bool
    requires below { state < states (problem_of sheet.now) }
    requires inside { Inside (problem_of sheet.now) }
    requires ranges { question5 (problem_of sheet.now) (cells_of sheet.now) ≡ true }
    ensures { result ≡ mark_at (problem_of sheet.now) (cells_of sheet.now) state }
{
    !sheet.is_solved(state) || mark_earned(sheet, state)
}
