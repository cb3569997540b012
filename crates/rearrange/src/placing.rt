// The order of placing, by a count for each state of the successors of unplaced decisions that point to it. Nothing is allocated here, so
// arrays have as many entries as there may be states, and n says how many are in use.
ghost use Rattle.std.specs.Prelude.{◌≡◌, true, false, [], ℕ, suc, ◌+◌, ◌<◌, ◌≤◌, length, get_or, take, MatchOption};
ghost use Rattle.model.specs.Problem.{states};
ghost use Rattle.model.specs.Read.{problem_of};
ghost use Rattle.sheet.specs.Sheet.{action_of, Below};
ghost use Rattle.order.specs.Order.{order, inverse, lists};
ghost use Rattle.rearrange.specs.Turning.{OneLess, Marked};
ghost use Rattle.layout.specs.Shape.{Inside};
ghost use Rattle.order.specs.Times.{times};
ghost use Rattle.rearrange.specs.Waits.{found_at, waiting, counted, lessened};

use sheet::actions::Action;
use sheet::fields::Indexed;

// The first below n that waits for none; those below `low` do wait. By a `for`: by `find` it took 17 to 19 per cent more instructions.
pub(crate) fn next_free(waits: &[u32], low: usize, n: usize) -> Option<usize>
    requires n_in_bounds { n ≤ length waits.now }
    requires by_index { (u : ℕ) → u < low → 0 < get_or waits.now u 0 }
    ensures { MatchOption result ((u : ℕ) → u < n → 0 < get_or waits.now u 0)
        (λ t. (t < n) × ((u : ℕ) → u < t → 0 < get_or waits.now u 0) × (get_or waits.now t 0 ≡ 0)) }
{
    for t in low..n {
        if waits[t] == 0 {
            return Some(t);
        }
    }
    None
}

// The lower of `least` and t where t waits for none; else `least`.
pub(crate) fn lower(least: usize, t: usize, w: u32) -> usize
    ensures { (result ≤ least) × (w ≡ 0 → result ≤ t) }
{
    if w == 0 { least.min(t) } else { least }
}

// The successors of an action wait for one less; the lowest of `low` and of those that now wait for none.
pub(crate) fn release_successors(action: &Action<'_>, waits: &mut [u32], low: usize) -> usize
    requires by_index { (u : ℕ) → times u (action_of action.now).successors ≤ get_or waits.old u 0 }
    requires by_index_2 { (u : ℕ) → u < low → 0 < get_or waits.old u 0 }
    ensures waits_after { waits.new ≡ lessened waits.old (action_of action.now).successors }
    ensures upper_bound { (result ≤ low) × ((u : ℕ) → u < result → 0 < get_or waits.new u 0) }
{
    let mut least = low;
    for t in action.successors() {
        let w = waits[t] - 1;
        waits[t] = w;
        least = lower(least, t, w);
    }
    least
}

// The same for all successors of a state.
pub(crate) fn release(sheet: &Indexed<'_>, state: usize, waits: &mut [u32], low: usize) -> usize
    requires below { state < states (problem_of sheet.now) }
    requires by_index { (u : ℕ) → times u (found_at (problem_of sheet.now) state) ≤ get_or waits.old u 0 }
    requires by_index_2 { (u : ℕ) → u < low → 0 < get_or waits.old u 0 }
    ensures waits_after { waits.new ≡ lessened waits.old (found_at (problem_of sheet.now) state) }
    ensures upper_bound { (result ≤ low) × ((u : ℕ) → u < result → 0 < get_or waits.new u 0) }
{
    if sheet.is_terminal(state) {
        return low;
    }
    let mut least = low;
    for action in sheet.actions(state) {
        least = release_successors(&action, waits, least);
    }
    least
}

// States are placed as long as one waits for none: how many were. `old` then begins with their old numbers in the order of placing.
pub(crate) fn place_all(sheet: &Indexed<'_>, waits: &mut [u32], old: &mut [u32]) -> usize
    requires n_value { (states (problem_of sheet.now) ≤ length waits.old) × (states (problem_of sheet.now) ≤ length old.old) }
    requires inside { Inside (problem_of sheet.now) }
    requires by_index { (u : ℕ) → u < states (problem_of sheet.now) → get_or waits.old u 0 ≡ waiting (problem_of sheet.now) [] u }
    ensures value { result ≡ length (order (problem_of sheet.now)) }
    ensures after { take result old.new ≡ order (problem_of sheet.now) }
    ensures by_index_2 { (u : ℕ) → u < states (problem_of sheet.now) → get_or waits.new u 0 ≡ waiting (problem_of sheet.now)
        (order (problem_of sheet.now)) u }
{
    let n = sheet.states();
    let mut low = 0;
    for k in 0..n {
        let Some(t) = next_free(waits, low, n) else {
            return k;
        };
        old[k] = t as u32;
        waits[t] = (k + 1) as u32;
        low = release(sheet, t, waits, t + 1);
    }
    n
}

// The successors of an action are counted. One walk for this and for `release_successors`, with a closure for what is done, is no plainer:
// it would carry a contract of the closure for every step.
pub(crate) fn count_successors(action: &Action<'_>, waits: &mut [u32])
    requires below { Below (length waits.old) (action_of action.now).successors }
    requires by_index_2 { (u : ℕ) → get_or waits.old u 0 + 16 < 4294967296 }
    ensures waits_after { waits.new ≡ counted waits.old (action_of action.now).successors }
    ensures few { length (action_of action.now).successors ≤ 16 }
{
    for t in action.successors() {
        waits[t] += 1;
    }
}

// The successors of a state are counted.
pub(crate) fn count_state(sheet: &Indexed<'_>, state: usize, waits: &mut [u32])
    requires below { state < states (problem_of sheet.now) }
    requires inside { Inside (problem_of sheet.now) × (states (problem_of sheet.now) ≤ length waits.old) }
    requires by_index { (u : ℕ) → get_or waits.old u 0 + 256 < 4294967296 }
    ensures waits_after { waits.new ≡ counted waits.old (found_at (problem_of sheet.now) state) }
    ensures few { length (found_at (problem_of sheet.now) state) ≤ 256 }
{
    if sheet.is_terminal(state) {
        return;
    }
    for action in sheet.actions(state) {
        count_successors(&action, waits);
    }
}

// The successors of all states are counted; every entry is 0 before.
pub(crate) fn count_all(sheet: &Indexed<'_>, waits: &mut [u32])
    requires n_value { states (problem_of sheet.now) ≤ length waits.old }
    requires inside { Inside (problem_of sheet.now) }
    requires by_index { (u : ℕ) → get_or waits.old u 0 ≡ 0 }
    ensures by_index_2 { (u : ℕ) → u < states (problem_of sheet.now) → get_or waits.new u 0 ≡ waiting (problem_of sheet.now) [] u }
    ensures waits_len_unchanged { length waits.new ≡ length waits.old }
{
    for s in 0..sheet.states() {
        count_state(sheet, s, waits);
    }
}

// Each of the first n entries becomes 1 less; false where one is 0.
pub(crate) fn one_less(new: &mut [u32], n: usize) -> bool
    requires { n ≤ length new.old }
    ensures one_less { result ≡ true → OneLess n new.old new.new }
    ensures by_index { result ≡ false → (u : ℕ) × (u < n) × (get_or new.old u 0 ≡ 0) }
    ensures len_unchanged { length new.new ≡ length new.old }
{
    for w in new[..n].iter_mut() {
        if *w == 0 {
            return false;
        }
        *w -= 1;
    }
    true
}

// For each number below n a place at which it is among the first n of a list, and 1 more; 0 where it is none of them.
pub(crate) fn mark_places(list: &[u32], n: usize, new: &mut [u32])
    requires n_in_bounds { (n ≤ length list.now) × (n ≤ length new.old) × (n < 65536) }
    requires by_index { (u : ℕ) → get_or new.old u 0 ≡ 0 }
    ensures { Marked list.now n n new.old new.new }
{
    for (i, t) in list[..n].iter().enumerate() {
        let t = *t as usize;
        if t < n {
            new[t] = (i + 1) as u32;
        }
    }
}

// The places of the numbers below n among the first n of a list; false where one is none of them.
pub(crate) fn places(list: &[u32], n: usize, new: &mut [u32]) -> bool
    requires n_in_bounds { (n ≤ length list.now) × (n ≤ length new.old) × (n < 65536) }
    requires by_index { (u : ℕ) → get_or new.old u 0 ≡ 0 }
    ensures value { result ≡ lists n (take n list.now) }
    ensures after { result ≡ true → take n new.new ≡ inverse (take n list.now) }
    ensures len_unchanged { length new.new ≡ length new.old }
{
    mark_places(list, n, new);
    one_less(new, n)
}
