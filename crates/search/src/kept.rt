// The least price of a decision's actions, and what is kept of their prices so that it is seldom worked out again.
ghost use Rattle.std.specs.Prelude.{◌≡◌, ◌<◌, min, length};
ghost use Rattle.model.specs.Problem.{node_at, value_of};
ghost use Rattle.model.specs.Format.{actions_of};
ghost use Rattle.model.specs.Read.{problem_of, cells_of};
ghost use Rattle.model.specs.QValue.{q, least};
ghost use Rattle.sheet.specs.Sheet.{IsDecision};
ghost use Rattle.search.specs.Did.{Workable};
ghost use Rattle.search.specs.Keeps.{Keeps};

use model::NO_PLAN;
use sheet::fields::Indexed;

// What is kept of the prices of the actions gone through: the least of those priced since the last raise, and the least of the others when
// they were priced. Values never fall, so no price has fallen below `old` since.
#[derive(Clone, Copy)]
pub(crate) struct Kept {
    pub(crate) fresh: u32,
    pub(crate) old: u32,
}

impl Kept {
    // Nothing is kept yet: the least of no prices is none.
    pub(crate) fn none() -> Kept
        ensures { (result.fresh ≡ 1000000001) × (result.old ≡ 1000000001) }
    {
        Kept {
            fresh: NO_PLAN,
            old: NO_PLAN,
        }
    }

    // One more action is skipped, at the price x.
    pub(crate) fn skipped(self, x: u32) -> Kept
        ensures { (result.fresh ≡ min self.fresh x) × (result.old ≡ self.old) }
    {
        Kept {
            fresh: self.fresh.min(x),
            old: self.old,
        }
    }

    // One more action is abandoned, after raises; its price is x now.
    pub(crate) fn abandoned(self, x: u32) -> Kept
        ensures { (result.fresh ≡ x) × (result.old ≡ min self.old self.fresh) }
    {
        Kept {
            fresh: x,
            old: self.old.min(self.fresh),
        }
    }
}

// The least price of a decision's actions, none where there is no action.
fn least_price(sheet: &Indexed<'_>, state: usize) -> u32
    requires decision { IsDecision sheet.now state }
    requires workable { Workable sheet.now }
    ensures { result ≡ least (q (problem_of sheet.now).kind (value_of (cells_of sheet.now)))
        (actions_of (node_at (problem_of sheet.now) state)) }
{
    let mut least: u32 = NO_PLAN;
    for action in sheet.actions(state) {
        least = least.min(sheet.price(&action).price);
    }
    least
}

// The least price of a decision's actions, all gone through: the least of the fresh ones where no old one can be less.
pub(crate) fn least_kept(sheet: &Indexed<'_>, state: usize, kept: Kept) -> u32
    requires decision { IsDecision sheet.now state }
    requires some { 0 < length (actions_of (node_at (problem_of sheet.now) state)) }
    requires workable { Workable sheet.now }
    requires keeps { Keeps (q (problem_of sheet.now).kind (value_of (cells_of sheet.now)))
        (actions_of (node_at (problem_of sheet.now) state)) (length (actions_of (node_at (problem_of sheet.now) state))) kept }
    ensures { result ≡ least (q (problem_of sheet.now).kind (value_of (cells_of sheet.now)))
        (actions_of (node_at (problem_of sheet.now) state)) }
{
    if kept.fresh <= kept.old {
        kept.fresh
    } else {
        least_price(sheet, state)
    }
}
