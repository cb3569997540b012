// The price of an action (S2.8) and its dearest successor (S2.9), for both kinds. Sums are kept in 64 bits before they are cut.
ghost use Rattle.std.specs.Prelude.{◌≡◌, ◌≤◌};
ghost use Rattle.model.specs.Problem.{value_of};
ghost use Rattle.model.specs.Read.{problem_of, cells_of};
ghost use Rattle.model.specs.QValue.{q, dearer_of, dearest};
ghost use Rattle.sheet.specs.Kinds.{kind_is};
ghost use Rattle.sheet.specs.Sheet.{action_of, Leads, of_kind, written_price};

use super::actions::Action;
use super::fields::{Indexed, Kind};
use model::{CEILING, LONG_CEILING, NO_PLAN};

// What pricing an action gives: its price, and the lowest-numbered of its successors whose value is largest.
#[derive(Clone, Copy)]
pub struct Pricing {
    pub price: u32,
    pub dearest: usize,
}

// Of the dearest successor so far, `best` of value `most`, and the next one, t of value x, the dearer; the one so far where they are equal.
fn dearer(most: u64, x: u64, best: usize, t: usize) -> usize
    ensures { result ≡ dearer_of most x best t }
{
    if most < x { t } else { best }
}

// Of the largest value and the sum, the one that the kind counts: the largest on a worst sheet, the sum on a whole one.
fn of_kind(kind: Kind, most: u64, total: u64) -> u64
    ensures { result ≡ of_kind (kind_is kind) most total }
{
    match kind {
        Kind::Worst => most,
        Kind::Whole => total,
    }
}

// The amount that is written for a price of x where the largest of the successors' values is `most`: none where that is, else x cut. Only a
// price that reaches the ceiling can be none, so most prices take one comparison.
fn written(most: u64, x: u64) -> u32
    requires { most ≤ x }
    ensures { (result ≡ written_price most x) × (result ≤ 1000000001) }
{
    if x < LONG_CEILING {
        x as u32
    } else if LONG_CEILING < most {
        NO_PLAN
    } else {
        CEILING
    }
}

impl<'a> Indexed<'a> {
    // The price of an action, by the sheet's kind and the current values, and its dearest successor. Both the largest value and the sum are
    // kept: one loop without a test of the kind.
    pub fn price(&self, action: &Action<'_>) -> Pricing
        requires { Leads self.now action.now }
        ensures { (result.price ≡ q (problem_of self.now).kind (value_of (cells_of self.now)) (action_of action.now)) ×
            (result.price ≤ 1000000001) ×
            (result.dearest ≡ dearest (value_of (cells_of self.now)) (action_of action.now).successors) }
    {
        let mut total: u64 = 0;
        let mut most: u64 = 0;
        let mut dearest = action.first();
        for t in action.successors() {
            let x = u64::from(self.value(t));
            total += x;
            dearest = dearer(most, x, dearest, t);
            most = most.max(x);
        }
        let sum = of_kind(self.kind(), most, total);
        Pricing {
            price: written(most, u64::from(action.cost()) + sum),
            dearest,
        }
    }
}
