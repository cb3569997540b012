// Passes, visits to the start, until one succeeds.
ghost use Rattle.std.specs.Prelude.{◌≡◌};
ghost use Rattle.model.specs.Read.{problem_of, cells_of};
ghost use Rattle.model.specs.Ldfs.{work as worked};
ghost use Rattle.sheet.specs.Sheet.{Within};
ghost use Rattle.search.specs.Did.{Workable, DidPasses};

use super::visits::{Visited, visit};

// What the work of a call gives: whether the last pass succeeded, or else work stopped for want of budget; the passes begun, and the
// raises made.
#[derive(Clone, Copy)]
pub struct Passes {
    pub succeeded: bool,
    pub begun: u64,
    pub raises: u64,
}

// The work of one call. A pass that fails has raised something, so what is left of the budget falls. The loop has no index and no end but
// the pass that does not fail.
pub fn work(sheet: &mut [u8], table: &[u32], start: usize, budget: u64) -> Passes
    requires within { Within sheet.old table.now start }
    requires workable { Workable sheet.old }
    requires start_value { start ≡ (problem_of sheet.old).start }
    ensures { DidPasses table.now (problem_of sheet.old) sheet.new result
        (worked (problem_of sheet.old) (cells_of sheet.old) budget) }
{
    let mut begun: u64 = 0;
    let mut raises: u64 = 0;
    loop {
        begun += 1;
        match visit(sheet, table, start, raises, budget) {
            Visited::Success(raises) => return Passes {
                succeeded: true,
                begun,
                raises,
            },
            Visited::Failure(by_then) => raises = by_then,
            Visited::Halt(raises) => return Passes {
                succeeded: false,
                begun,
                raises,
            },
        }
    }
}
