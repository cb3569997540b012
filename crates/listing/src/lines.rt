// The lines of a listing.
ghost use Rattle.std.specs.Prelude.{◌++◌, ◌+◌, ◌<◌, ◌≤◌, length};
ghost use Rattle.model.specs.Problem.{node_at, cell_of, states};
ghost use Rattle.model.specs.Read.{problem_of, cells_of};
ghost use Rattle.listing.specs.Text.{ascii};
ghost use Rattle.listing.specs.Listing.{field, figures, line_one, choice_of, dearest_chosen, line_end, state_line};
ghost use Rattle.listing.specs.Listing.{max_line_one, max_state_line};
ghost use Rattle.sheet.specs.Put.{HasRoom, Appended};
ghost use Rattle.listing.specs.Put.{max_refused, max_figures, max_choice, max_line_end, Listable, Chooses};

use super::text::put_field;
use model::{Answer, Outcome};
use questions::states::chosen_action;
use sheet::fields::Indexed;
use sheet::put::Page;

// `refused` and the number.
fn put_refused(page: &mut Page, n: u32)
    requires { HasRoom page.old max_refused }
    ensures appended { Appended page.old page.new (field (ascii "refused ") n ++ ascii "\n") }
    ensures upper_bound { page.new.end ≤ page.old.end + max_refused }
{
    put_field(page, b"refused ", u64::from(n));
    page.bytes(b"\n");
}

// An outcome's word, the start's value, passes and raises.
fn put_figures(page: &mut Page, word: &[u8], a: Answer)
    requires { HasRoom page.old (length word.now + max_figures) }
    ensures appended { Appended page.old page.new (figures word.now a) }
    ensures upper_bound { page.new.end ≤ page.old.end + length word.now + max_figures }
{
    put_field(page, word, a.price);
    put_field(page, b" ", a.passes);
    put_field(page, b" ", a.raises);
    page.bytes(b"\n");
}

// Line one of a listing (S10.2).
pub(crate) fn put_answer(page: &mut Page, a: Answer)
    requires { HasRoom page.old max_line_one }
    ensures appended { Appended page.old page.new (line_one a) }
    ensures upper_bound { page.new.end ≤ page.old.end + max_line_one }
{
    match a.outcome {
        Outcome::Refused(n) => put_refused(page, n),
        Outcome::Settled => put_figures(page, b"settled ", a),
        Outcome::Over => put_figures(page, b"over ", a),
        Outcome::Stopped => put_figures(page, b"stopped ", a),
        Outcome::None => put_figures(page, b"none ", a),
    }
}

// A state's chosen action, or `end`.
fn put_choice(page: &mut Page, sheet: &Indexed<'_>, state: usize)
    requires state_bound { state < states (problem_of sheet.now) }
    requires room { HasRoom page.old max_choice }
    ensures appended { Appended page.old page.new
        (choice_of (node_at (problem_of sheet.now) state) (cell_of (cells_of sheet.now) state)) }
    ensures upper_bound { page.new.end ≤ page.old.end + max_choice }
{
    if sheet.is_terminal(state) {
        page.bytes(b" end");
    } else {
        put_field(page, b" check ", u64::from(sheet.chosen(state)));
    }
}

// The end of a state's line: behind a decision's value the dearest successor of its chosen action.
fn put_line_end(page: &mut Page, sheet: &Indexed<'_>, state: usize)
    requires listable { Listable sheet.now }
    requires state_bound { state < states (problem_of sheet.now) }
    requires chooses { Chooses (problem_of sheet.now) (cells_of sheet.now) state }
    requires room { HasRoom page.old max_line_end }
    ensures appended { Appended page.old page.new
        (line_end (node_at (problem_of sheet.now) state)
        (dearest_chosen (problem_of sheet.now) (cells_of sheet.now) state)) }
    ensures upper_bound { page.new.end ≤ page.old.end + max_line_end }
{
    if !sheet.is_terminal(state) {
        let x = sheet.price(&chosen_action(sheet, state));
        put_field(page, b" by ", x.dearest as u64);
    }
    page.bytes(b"\n");
}

// A state's line (S10.3).
pub(crate) fn put_state(page: &mut Page, sheet: &Indexed<'_>, state: usize)
    requires listable { Listable sheet.now }
    requires state_bound { state < states (problem_of sheet.now) }
    requires chooses { Chooses (problem_of sheet.now) (cells_of sheet.now) state }
    requires room { HasRoom page.old max_state_line }
    ensures appended { Appended page.old page.new
        (state_line (problem_of sheet.now) (cells_of sheet.now) state) }
    ensures upper_bound { page.new.end ≤ page.old.end + max_state_line }
{
    put_field(page, b"stage ", state as u64);
    put_choice(page, sheet, state);
    put_field(page, b" value ", u64::from(sheet.value(state)));
    put_line_end(page, sheet, state);
}
