// The functions that a terminal's host program calls: `ldfs_solve` here, those on drafts in drafts.rt.
#![tactic(auto)]

pub mod drafts; // drafts.rt: a draft rearranged, and restored

ghost use Rattle.std.specs.Prelude.{◌≡◌, ◌++◌, true, ◌+◌, ◌*◌, ◌<◌, ◌≤◌, length, drop};
ghost use Rattle.model.specs.Limits.{max_states};
ghost use Rattle.model.specs.Format.{be16, states_in};
ghost use Rattle.model.specs.Report.{number};
ghost use Rattle.layout.specs.Placed.{placed};
ghost use Rattle.host.specs.Host.{le32, le64, result_bytes, entries, entry_bytes};
ghost use Rattle.host.specs.Host.{host_number, host_sheet, host_table, host_result};
ghost use Rattle.host.specs.Served.{filled_up, few_states, Serves, Worked};

use ldfs::{refusal, solve_zeroed};
use model::refusal::Question;
use model::{Answer, MAX_STATES, Outcome, format};
use sheet::numbers::get16;

// The fewest bytes of a table (S9.2), and of a result (S9.5): price, passes and raises, eight bytes each.
const TABLE_BYTES: usize = 4 * MAX_STATES;

const RESULT_BYTES: usize = 24;

// A sheet of no more states than this has few (`few_states`): it is worked on a short index table, which is cleared sooner.
const FEW_STATES: usize = 256;

// Price, passes and raises become the first 24 bytes of the result.
fn put_answer(res: &mut [u8], a: Answer)
    requires { result_bytes ≤ length res.old }
    ensures { res.new ≡
        placed 0 (le64 a.price ++ (le64 a.passes ++ le64 a.raises)) res.old }
{
    res[..8].copy_from_slice(&a.price.to_le_bytes());
    res[8..16].copy_from_slice(&a.passes.to_le_bytes());
    res[16..RESULT_BYTES].copy_from_slice(&a.raises.to_le_bytes());
}

// The entries of the index table as bytes, as far as whole entries go: the table's own, and then zeros. It compiles to a copy and a fill,
// and each entry is written once. By index: of what is written through `chunks_exact_mut` no contract speaks.
fn put_table(bytes: &mut [u8], table: &[u32])
    requires { length table.now ≤ entries bytes.old }
    ensures { bytes.new ≡ entry_bytes (filled_up table.now (entries bytes.old)) ++
        drop (4 * entries bytes.old) bytes.old }
{
    let n = bytes.len() / 4;
    for (i, x) in table.iter().enumerate() {
        bytes[4 * i..4 * i + 4].copy_from_slice(&x.to_le_bytes());
    }
    bytes[4 * table.len()..4 * n].fill(0);
}

// Has the sheet few states, by its head?
fn has_few(sheet: &[u8]) -> bool
    ensures { result ≡ true → be16 sheet.now states_in ≤ few_states }
{
    sheet.len() >= format::HEAD_SIZE && usize::from(get16(sheet, format::STATES_IN)) <= FEW_STATES
}

// Works a sheet on an index table of its own, of N entries, and writes the host's table from it.
fn solve_with<const N: usize>(sheet: &mut [u8], table: &mut [u8], budget: u64) -> Answer
    requires { Serves N sheet.old table.old }
    ensures { Worked sheet.old table.old budget result sheet.new table.new }
{
    let mut index = [0u32; N];
    let a = solve_zeroed(sheet, &mut index, budget);
    put_table(table, &index);
    a
}

// The number of an outcome, as C has it.
fn outcome_number(o: Outcome) -> u32
    ensures { result ≡ number o }
{
    match o {
        Outcome::Refused(n) => n,
        Outcome::Settled => 100,
        Outcome::Over => 101,
        Outcome::Stopped => 102,
        Outcome::None => 103,
    }
}

// Works a sheet (S9; include/ldfs.h). Whatever the slices hold, they are left as S9 says, and the number says how the call ended.
#[unsafe(no_mangle)]
pub extern "C" fn ldfs_solve(sheet: &mut [u8], table: &mut [u8], budget: u64, res: &mut [u8]) -> u32
    ensures number { result ≡ host_number sheet.old table.old budget res.old }
    ensures sheet { sheet.new ≡ host_sheet sheet.old table.old budget res.old }
    ensures table { table.new ≡ host_table sheet.old table.old budget res.old }
    ensures res { res.new ≡
        host_result sheet.old table.old budget res.old }
{
    if res.len() < RESULT_BYTES {
        return Question::Room.number();
    }
    if table.len() < TABLE_BYTES {
        put_answer(res, refusal(Question::Room.number(), budget));
        return Question::Room.number();
    }
    let a = if has_few(sheet) {
        solve_with::<FEW_STATES>(sheet, table, budget)
    } else {
        solve_with::<MAX_STATES>(sheet, table, budget)
    };
    put_answer(res, a);
    outcome_number(a.outcome)
}
