// The functions that a host program calls on drafts: one makes a draft an ordinary sheet, the other makes it a draft again.
ghost use Rattle.std.specs.Prelude.{◌≡◌, ◌≤◌, length};
ghost use Rattle.order.specs.Asking.{question1_lent};
ghost use Rattle.host.specs.Host.{entries};
ghost use Rattle.host.specs.HostDrafts.{numbers_in, host_rearrange, host_rearrange_table, host_rearrange_output, host_rearrange_list};
ghost use Rattle.host.specs.HostDrafts.{host_restore, host_restore_table, host_restore_output};

use super::{TABLE_BYTES, put_table};
use model::MAX_STATES;
use model::refusal::Question;
use rearrange::{rearrange, restore};

// The fewest bytes of a list of old numbers.
const LIST_BYTES: usize = 4 * MAX_STATES;

// The numbers returned, as C has them: rearranged, restored.
const REARRANGED: u32 = 105;

const RESTORED: u32 = 106;

// Question 1: have table, output and list the room that both calls ask for? (`rearrange` asks the same of its own, by entries.)
fn has_room(sheet: &[u8], table: &[u8], output: &[u8], list: &[u8]) -> bool
    ensures { result ≡ question1_lent sheet.now (entries table.now) (length output.now)
        (entries list.now) }
{
    table.len() >= TABLE_BYTES && output.len() >= sheet.len() && list.len() >= LIST_BYTES
}

// The numbers that the first entries of a list's bytes hold. By index: of what is written through `iter_mut` in a `zip` no contract speaks.
fn get_list(bytes: &[u8], numbers: &mut [u32])
    requires { length numbers.old ≤ entries bytes.now }
    ensures { numbers.new ≡ numbers_in (length numbers.old) bytes.now }
{
    let (entries, _) = bytes.as_chunks::<4>();
    for (i, x) in numbers.iter_mut().enumerate() {
        *x = u32::from_le_bytes(entries[i]);
    }
}

// Makes a draft an ordinary sheet, in the output, and lists the old numbers of its stages (include/ldfs.h). Whatever the slices hold, the
// number and the slices are as the definitions say. The work is done on an index table and a list of its own, and a refusal leaves the
// host's list.
#[unsafe(no_mangle)]
pub extern "C" fn ldfs_rearrange(
    sheet: &[u8],
    table: &mut [u8],
    output: &mut [u8],
    list: &mut [u8],
) -> u32
    ensures number { result ≡
        host_rearrange sheet.now table.old output.old list.old }
    ensures table { table.new ≡
        host_rearrange_table sheet.now table.old output.old list.old }
    ensures output { output.new ≡
        host_rearrange_output sheet.now table.old output.old list.old }
    ensures list { list.new ≡
        host_rearrange_list sheet.now table.old output.old list.old }
{
    if !has_room(sheet, table, output, list) {
        return Question::Room.number();
    }
    let mut index = [0u32; MAX_STATES];
    let mut numbers = [0u32; MAX_STATES];
    let v = rearrange(sheet, &mut index, output, &mut numbers);
    put_table(table, &index);
    match v {
        Ok(()) => {
            put_table(list, &numbers);
            REARRANGED
        }
        Err(by) => by.number(),
    }
}

// Makes an ordinary sheet the draft that it was, in the output, by the list of old numbers (include/ldfs.h). Whatever the slices hold, the
// number and the slices are as the definitions say. The work is done on an index table and a list of its own.
#[unsafe(no_mangle)]
pub extern "C" fn ldfs_restore(
    sheet: &[u8],
    table: &mut [u8],
    list: &[u8],
    output: &mut [u8],
) -> u32
    ensures number { result ≡
        host_restore sheet.now table.old list.now output.old }
    ensures table { table.new ≡
        host_restore_table sheet.now table.old list.now output.old }
    ensures output { output.new ≡
        host_restore_output sheet.now table.old list.now output.old }
{
    if !has_room(sheet, table, output, list) {
        return Question::Room.number();
    }
    let mut index = [0u32; MAX_STATES];
    let mut numbers = [0u32; MAX_STATES];
    get_list(list, &mut numbers);
    let v = restore(sheet, &mut index, &numbers, output);
    put_table(table, &index);
    match v {
        Ok(()) => RESTORED,
        Err(by) => by.number(),
    }
}
