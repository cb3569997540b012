// A visit to a state. Three functions call each other: a visit to a decision tries its actions in turn, and to try an action is to visit
// its successors, whose numbers are larger.
ghost use Rattle.std.specs.Prelude.{◌≡◌, false, List, ℕ, ◌+◌, ◌<◌, ◌≤◌, length, drop};
ghost use Rattle.model.specs.Problem.{Problem, node_at, cell_of, value_of, solved};
ghost use Rattle.model.specs.Format.{actions_of};
ghost use Rattle.model.specs.Read.{problem_of, cells_of, action_read};
ghost use Rattle.model.specs.QValue.{q, least};
ghost use Rattle.model.specs.Ldfs.{failure, update as updated, finish as finished};
ghost use Rattle.sheet.specs.Sheet.{Within, Decision, Priced};
ghost use Rattle.search.specs.Did.{search, visiting, trying, Stored, Did, Workable};
ghost use Rattle.search.specs.Keeps.{Keeps};
ghost use Rattle.search.specs.Opens.{ValueAt, Opens, Fair};

use super::kept::{Kept, least_kept};
use model::{NO_PLAN, format};
use sheet::actions::{Action, action_here};
use sheet::fields::{Indexed, mark_decision, mark_end};
use sheet::numbers::{get16, set32};

// How a visit ended, with the raises made by then: it succeeded, it failed, or work stopped for want of budget (S6.9).
// No `Result`: with an enum for its error it would not fit two registers, and deep sheets would take up to 4 % more instructions.
#[derive(Clone, Copy)]
pub(crate) enum Visited {
    Success(u64),
    Failure(u64),
    Halt(u64),
}

// An open decision that is visited: its number, where its value stands, and its value, which stays while later states are visited. The
// place and the value are read once a visit.
#[derive(Clone, Copy)]
struct OpenDecision {
    state: usize,
    cell: usize,
    value: u32,
}

// The value at `at`, which is `value`, becomes x: a raise where that is larger. Gives the raises made by then, or nothing just before the
// raise that would go beyond the budget.
fn update(sheet: &mut [u8], at: usize, value: u32, x: u32, raises: u64, budget: u64) -> Option<u64>
    requires { at + 4 ≤ length sheet.old }
    ensures { (t : List ℕ) (p : Problem) (i : ℕ) → ValueAt sheet.old t p i at value →
        Stored t p sheet.new raises result (λ next. updated budget i x next (search (cells_of sheet.old) raises)) }
{
    if value < x {
        if raises < budget {
            set32(sheet, at, x);
            Some(raises + 1)
        } else {
            None
        }
    } else {
        set32(sheet, at, x);
        Some(raises)
    }
}

// An open state that has no action to try: its value becomes x, and it is marked. Nothing is chosen there, which is written 0 already.
fn finish(
    sheet: &mut [u8],
    table: &[u32],
    state: usize,
    x: u32,
    raises: u64,
    budget: u64,
) -> Visited
    requires within { Within sheet.old table.now state }
    requires state_value { (cell_of (cells_of sheet.old) state).chosen ≡ 0 }
    ensures { Did table.now (problem_of sheet.old) sheet.new result
        (finished budget state x (search (cells_of sheet.old) raises)) }
{
    let here = Indexed::new(sheet, table);
    let at = here.value_place(state);
    let value = here.value(state);
    let Some(spent) = update(sheet, at, value, x, raises, budget) else {
        return Visited::Halt(raises);
    };
    mark_end(sheet, at);
    Visited::Success(spent)
}

// An open decision none of whose actions passed: its value becomes the least price.
fn fail(
    sheet: &mut [u8],
    table: &[u32],
    d: OpenDecision,
    kept: Kept,
    raises: u64,
    budget: u64,
) -> Visited
    requires opens { Opens sheet.old table.now d }
    requires workable { Workable sheet.old }
    requires keeps { Keeps (q (problem_of sheet.old).kind (value_of (cells_of sheet.old)))
        (actions_of (node_at (problem_of sheet.old) d.state))
        (length (actions_of (node_at (problem_of sheet.old) d.state))) kept }
    ensures { Did table.now (problem_of sheet.old) sheet.new result
        (updated budget d.state (least (q (problem_of sheet.old).kind (value_of (cells_of sheet.old)))
        (actions_of (node_at (problem_of sheet.old) d.state))) failure (search (cells_of sheet.old) raises)) }
{
    let x = least_kept(&Indexed::new(sheet, table), d.state, kept);
    let Some(spent) = update(sheet, d.cell, d.value, x, raises, budget) else {
        return Visited::Halt(raises);
    };
    Visited::Failure(spent)
}

// The price of the action at `a`, as the sheet is now: values rise between one pricing and the next.
fn price_at(sheet: &[u8], table: &[u32], a: usize) -> u32
    requires { Priced sheet.now table.now a }
    ensures { result ≡ q (problem_of sheet.now).kind (value_of (cells_of sheet.now)) (action_read (drop a sheet.now)) }
{
    Indexed::new(sheet, table)
        .price(&Action::new(sheet, a))
        .price
}

// Action n of an open decision, which stands at `a` and whose price is not above the value: its successors are visited in turn, by their
// offsets, and after each visit that raised something it is priced anew. If every one passes, the decision is marked and this action
// chosen.
#[cycle(try_action_visit_visit_decision)]
fn try_action(
    sheet: &mut [u8],
    table: &[u32],
    d: OpenDecision,
    n: u8,
    a: usize,
    raises: u64,
    budget: u64,
) -> Visited
    requires opens { Opens sheet.old table.now d }
    requires workable { Workable sheet.old }
    requires raises_le_budget { raises ≤ budget }
    requires fair { Fair sheet.old d n a }
    ensures { Did table.now (problem_of sheet.old) sheet.new result
        (trying (problem_of sheet.old) budget d.state n (search (cells_of sheet.old) raises)) }
{
    let end = Action::new(sheet, a).end();
    let mut spent = raises;
    // No `for` over the offsets by two: its proof does not close at the end, which it leaves from the end of a turn too.
    let mut o: usize = a + format::SUCCESSORS_IN;
    while o < end {
        let t = usize::from(get16(sheet, o));
        o += format::SUCCESSOR_BYTES;
        let before = spent;
        match visit(sheet, table, t, before, budget) {
            Visited::Success(by_then) => spent = by_then,
            ended => return ended,
        }
        if spent == before {
            continue;
        }
        let y = price_at(sheet, table, a);
        if y > d.value {
            return Visited::Failure(spent);
        }
    }
    mark_decision(sheet, d.cell, n);
    Visited::Success(spent)
}

// A visit to an open decision: its actions are taken in order, one whose price is above the value skipped. An action that is abandoned is
// priced at once. A decision without actions is finished at none (S6.11), which is seen behind the loop. It goes by offsets: a visit writes
// the sheet between one action and the next, and no walk over it can be held meanwhile.
#[cycle(try_action_visit_visit_decision)]
fn visit_decision(
    sheet: &mut [u8],
    table: &[u32],
    state: usize,
    raises: u64,
    budget: u64,
) -> Visited
    requires decision { Decision sheet.old table.now state }
    requires state_value { solved (cell_of (cells_of sheet.old) state) ≡ false }
    requires workable { Workable sheet.old }
    requires raises_le_budget { raises ≤ budget }
    ensures { Did table.now (problem_of sheet.old) sheet.new result
        (visiting (problem_of sheet.old) budget state (search (cells_of sheet.old) raises)) }
{
    let here = Indexed::new(sheet, table);
    let cell = here.value_place(state);
    let value = here.value(state);
    let d = OpenDecision { state, cell, value };
    let mut kept = Kept::none();
    let mut spent = raises;
    let mut at: usize = here.first_action(state);
    let mut i: u8 = 0;
    while action_here(sheet, at) {
        let a = at;
        at = Action::new(sheet, a).end();
        let x = price_at(sheet, table, a);
        if x > value {
            kept = kept.skipped(x);
            i += 1;
            continue;
        }
        match try_action(sheet, table, d, i, a, spent, budget) {
            Visited::Failure(by_then) => spent = by_then,
            ended => return ended,
        }
        kept = kept.abandoned(price_at(sheet, table, a));
        i += 1;
    }
    if i == 0 {
        return finish(sheet, table, state, NO_PLAN, spent, budget);
    }
    fail(sheet, table, d, kept, spent, budget)
}

// A visit to a state: a solved one succeeds (S6.2), and a terminal is finished at its cost (S6.3).
#[cycle(try_action_visit_visit_decision)]
pub(crate) fn visit(
    sheet: &mut [u8],
    table: &[u32],
    state: usize,
    raises: u64,
    budget: u64,
) -> Visited
    requires within { Within sheet.old table.now state }
    requires workable { Workable sheet.old }
    requires raises_le_budget { raises ≤ budget }
    ensures { Did table.now (problem_of sheet.old) sheet.new result
        (visiting (problem_of sheet.old) budget state (search (cells_of sheet.old) raises)) }
{
    let here = Indexed::new(sheet, table);
    if here.is_solved(state) {
        return Visited::Success(raises);
    }
    if here.is_terminal(state) {
        let cost = here.terminal_cost(state);
        return finish(sheet, table, state, cost, raises, budget);
    }
    visit_decision(sheet, table, state, raises, budget)
}
