// The states that the plan reaches, one line each, in one ascending pass: a state's successors are above it.
ghost use Rattle.std.specs.Prelude.{◌≡◌, true, false, ℕ, ◌*◌, ◌<◌, ◌≤◌, length, get_or};
ghost use Rattle.model.specs.Problem.{states};
ghost use Rattle.model.specs.Read.{problem_of, cells_of};
ghost use Rattle.model.specs.Limits.{max_states};
ghost use Rattle.sheet.specs.Sheet.{action_of, Below};
ghost use Rattle.listing.specs.Listing.{chosen_successors, reached_below, state_lines, plan_of, max_state_line};
ghost use Rattle.sheet.specs.Put.{HasRoom, Appended};
ghost use Rattle.listing.specs.Put.{Listable, Chooses, flagged};
ghost use Rattle.model.specs.declared.Outcome.TheVariants.{Settled};

use super::lines::put_state;
use model::MAX_STATES;
use questions::states::chosen_action;
use sheet::actions::Action;
use sheet::fields::Indexed;
use sheet::put::Page;

// The flags of an action's successors go up.
fn flag_all(action: &Action<'_>, flags: &mut [bool])
    requires { Below (length flags.old) (action_of action.now).successors }
    ensures { flags.new ≡ flagged flags.old (action_of action.now).successors }
{
    for t in action.successors() {
        flags[t] = true;
    }
}

// The flags of the successors of a state's chosen action go up.
fn reach_on(sheet: &Indexed<'_>, flags: &mut [bool], state: usize)
    requires listable { Listable sheet.now }
    requires state_bound { (state < states (problem_of sheet.now)) × (states (problem_of sheet.now) ≤ length flags.old) }
    requires chooses { Chooses (problem_of sheet.now) (cells_of sheet.now) state }
    ensures { flags.new ≡ flagged flags.old
        (chosen_successors (problem_of sheet.now) (cells_of sheet.now) state) }
{
    if !sheet.is_terminal(state) {
        flag_all(&chosen_action(sheet, state), flags);
    }
}

// The lines of the states whose flags are up, from the first state on; at the outset only the start's is.
fn put_states(page: &mut Page, sheet: &Indexed<'_>, flags: &mut [bool], n: usize)
    requires listable { Listable sheet.now }
    requires n_value { (n ≡ states (problem_of sheet.now)) × (n ≤ length flags.old) }
    requires by_index { (t : ℕ) → t < n →
        get_or flags.old t false ≡ reached_below (problem_of sheet.now) (cells_of sheet.now) 0 t }
    requires room { HasRoom page.old (max_state_line * n) }
    ensures { Appended page.old page.new
        (state_lines (problem_of sheet.now) (cells_of sheet.now) n) }
{
    for s in 0..n {
        if flags[s] {
            put_state(page, sheet, s);
            reach_on(sheet, flags, s);
        }
    }
}

// The lines of a settled sheet that follow line one: one for each state that the plan reaches (S10.3).
pub(crate) fn put_plan(page: &mut Page, sheet: &Indexed<'_>)
    requires listable { Listable sheet.now }
    requires room { HasRoom page.old (max_state_line * max_states) }
    ensures { Appended page.old page.new (plan_of Settled sheet.now) }
{
    let n = sheet.states();
    let mut flags = [false; MAX_STATES];
    flags[sheet.start()] = true;
    put_states(page, sheet, &mut flags, n);
}
