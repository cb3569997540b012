// The actions of a decision, one behind the other, and the successors of an action.
ghost use Rattle.std.specs.Prelude.{◌≡◌, true, ◌+◌, ◌*◌, ◌-◌, ◌<◌, ◌≤◌, eqb, length, get_or, drop, take};
ghost use Rattle.std.specs.Iterator.{at_most, YieldsFirst, item_count};
ghost use Rattle.model.specs.Problem.{node_at};
ghost use Rattle.model.specs.Format.{action_tag, successors_in, successor_bytes, actions_of, action_offset};
ghost use Rattle.model.specs.Limits.{max_successors, max_actions};
ghost use Rattle.model.specs.Read.{problem_of, action_fits};
ghost use Rattle.sheet.specs.Sheet.{action_of, walked, Below, IsDecision, Steps};

use super::fields::Indexed;
use super::numbers::{byte_at, get16, get32};
use model::format;
use std::marker::Model;

// Does an action stand at `at`?
pub fn action_here(sheet: &[u8], at: usize) -> bool
    ensures { result ≡ eqb (get_or sheet.now at 0) action_tag }
{
    byte_at(sheet, at) == format::ACTION_TAG
}

// An action's field, at its offset in a sheet's bytes.
#[derive(Drop)]
pub struct Action<'a> {
    bytes: &'a [u8],
    at: usize,
}

impl<'a> Model for Action<'a> {
    ghost use Rattle.sheet.specs.Sheet.{Place, Stands};

    ghost Value = { Place };

    ghost view = { λ a. record { bytes = a.bytes.now; at = a.at } };

    ghost invariant = { λ a. Stands a.bytes.now a.at };
}

impl<'a> Action<'a> {
    // The action whose field stands at `at`.
    pub fn new(bytes: &'a [u8], at: usize) -> Action<'a>
        requires { action_fits (drop at bytes.now) ≡ true }
        ensures { (result.bytes ≡ bytes.now) × (result.at ≡ at) }
    {
        Action { bytes, at }
    }

    // What stands before its successors: its tag, its length and its cost.
    pub fn heading(&self) -> &'a [u8]
        ensures { result.now ≡ take successors_in (drop self.now.at self.now.bytes) }
    {
        &self.bytes[self.at..self.at + format::SUCCESSORS_IN]
    }

    // Its cost.
    pub fn cost(&self) -> u32
        ensures { result ≡ (action_of self.now).cost }
    {
        get32(self.bytes, self.at + format::ACTION_COST_IN)
    }

    // Where it ends: the next one, if there is one, stands there.
    pub fn end(&self) -> usize
        ensures { (result ≡ self.now.at + successors_in + successor_bytes * length (action_of self.now).successors) ×
            (result ≤ length self.now.bytes) }
    {
        self.at + format::CONTENT_IN + usize::from(get16(self.bytes, self.at + format::LENGTH_IN))
    }

    // Its first successor.
    pub fn first(&self) -> usize
        ensures { (result ≡ get_or (action_of self.now).successors 0 0) × (result < 65536) }
    {
        usize::from(get16(self.bytes, self.at + format::SUCCESSORS_IN))
    }

    // Its successors, of which there are 1 to 16, each a number of two bytes.
    pub fn successors(&self) -> Successors<'a>
        ensures { (result ≡ (action_of self.now).successors) × (1 ≤ length (action_of self.now).successors) ×
            (length (action_of self.now).successors ≤ max_successors) × Below 65536 (action_of self.now).successors }
    {
        Successors {
            pairs: &self.bytes[self.at + format::SUCCESSORS_IN..self.end()],
        }
    }
}

// The successors of an action that are left. Clauses see their numbers.
#[derive(Drop)]
pub struct Successors<'a> {
    pairs: &'a [u8],
}

impl<'a> Model for Successors<'a> {
    ghost use Rattle.std.specs.Prelude.{List, ℕ, ◌/◌, length};
    ghost use Rattle.model.specs.Read.{successors_read};

    ghost Value = { List ℕ };

    ghost view = { λ s. successors_read (length s.pairs.now / 2) s.pairs.now };
}

impl<'a> Iterator for Successors<'a> {
    type Item = usize;

    ghost next_gives = { YieldsFirst (λ s. s) };

    ghost remaining = { item_count (λ s. s) };

    fn next(&mut self) -> Option<usize> {
        if self.pairs.len() < format::SUCCESSOR_BYTES {
            return None;
        }
        let t = get16(self.pairs, 0);
        self.pairs = &self.pairs[format::SUCCESSOR_BYTES..];
        Some(usize::from(t))
    }
}

// The actions of a decision that are left: the offset of the next. `state` and `index`, which the clauses see, are read by no code; a ghost
// field is a fact and holds no number.
#[derive(Drop)]
pub struct Actions<'a> {
    bytes: &'a [u8],
    at: usize,
    state: usize,
    index: usize,
}

impl<'a> Model for Actions<'a> {
    ghost use Rattle.sheet.specs.Sheet.{Walk, Walks};

    ghost Value = { Walk };

    ghost view = { λ a. record { bytes = a.bytes.now; state = a.state; index = a.index } };

    ghost invariant = { λ a. Walks (record { bytes = a.bytes.now; state = a.state; index = a.index }) a.at };
}

impl<'a> Iterator for Actions<'a> {
    type Item = Action<'a>;

    ghost next_gives = { Steps };

    ghost remaining = { λ w. at_most (length (walked w) - w.index) };

    fn next(&mut self) -> Option<Action<'a>> {
        if action_here(self.bytes, self.at) {
            let action = Action::new(self.bytes, self.at);
            self.at = action.end();
            self.index += 1;
            Some(action)
        } else {
            None
        }
    }
}

impl<'a> Indexed<'a> {
    // The actions of a decision.
    pub fn actions(&self, state: usize) -> Actions<'a>
        requires { IsDecision self.now state }
        ensures { (result.bytes ≡ self.now) × (result.state ≡ state) × (result.index ≡ 0) ×
            (length (actions_of (node_at (problem_of self.now) state)) ≤ max_actions) }
    {
        Actions {
            bytes: self.bytes(),
            at: self.first_action(state),
            state,
            index: 0,
        }
    }
}
