// Question 4 (S4.4): are the fields in place? The index table is filled on the way, and the number of actions that a decision writes is
// compared with those that follow, for question 10 (S4.10).
ghost use Rattle.std.specs.Prelude.{◌≡◌, true, ◌++◌, ◌+◌, ◌<◌, ◌≤◌, IfSome, MatchOption, length, drop};
ghost use Rattle.model.specs.Format.{be16, length_in, content_in, max_action_length, head_size, offsets_from};
ghost use Rattle.model.specs.Read.{field_fits, form_read, header_fits, nodes_good, nodes_read};
ghost use Rattle.model.specs.Limits.{max_bytes};
ghost use Rattle.model.specs.Questions.{first_no, count_is};
ghost use Rattle.questions.specs.Put.{field_length, header_size, read_questions};
ghost use Rattle.questions.specs.Verdicts.{verdict};

use model::refusal::{Question, Refusal};
use model::{MAX_ACTIONS, format};
use sheet::numbers::{byte_at, get16};

// Is the field at `at`, whose tag has been read, one with a content of n bytes, all there?
fn field_fits(s: &[u8], at: usize, n: usize) -> bool
    requires { (at ≤ length s.now) × (length s.now ≤ max_bytes) × (n < 256) }
    ensures { result ≡ field_fits n (drop at s.now) }
{
    at + format::CONTENT_IN + n <= s.len() && usize::from(get16(s, at + format::LENGTH_IN)) == n
}

// The length of a decision's own field, in one form or the other, where it fits.
fn header_size(s: &[u8], at: usize) -> Option<usize>
    requires { (at ≤ length s.now) × (length s.now ≤ max_bytes) }
    ensures value { result ≡ header_size (drop at s.now) }
    ensures small { IfSome result (λ size. size < 256) }
{
    let n = match byte_at(s, at) {
        format::PLAIN_TAG => format::PLAIN_LENGTH,
        format::COUNTED_TAG => format::COUNTED_LENGTH,
        _ => return None,
    };
    field_fits(s, at, n).then_some(format::CONTENT_IN + n)
}

// Question 10 (S4.10) of a decision with n actions, whose own field stands at `at`.
fn count_right(s: &[u8], at: usize, n: usize) -> bool
    requires at_in_bounds { (at ≤ length s.now) × (length s.now ≤ max_bytes) }
    requires s_value { header_fits (drop at s.now) ≡ true }
    ensures { result ≡ count_is (form_read (drop at s.now)) n }
{
    s[at] != format::COUNTED_TAG || usize::from(s[at + format::COUNT_IN]) == n
}

// The length of an action's field, whose tag has been read, where its content has 6 to 36 bytes, even, all there.
fn action_length(s: &[u8], at: usize) -> Option<usize>
    requires { (at ≤ length s.now) × (length s.now ≤ max_bytes) }
    ensures value { result ≡ field_length (drop at s.now) }
    ensures small { IfSome result (λ l. l ≤ content_in + max_action_length) }
{
    if s.len() < at + format::CONTENT_IN {
        return None;
    }
    let n = usize::from(get16(s, at + format::LENGTH_IN));
    if n < format::MIN_ACTION_LENGTH || n > format::MAX_ACTION_LENGTH {
        return None;
    }
    if n % 2 != 0 || s.len() < at + format::CONTENT_IN + n {
        return None;
    }
    Some(format::CONTENT_IN + n)
}

// Questions 4 and 10, of a sheet whose head says so many states. The first field out of place ends the reading, whichever loop it stands
// in; a number of actions that is wrong does not. Where the fields are in place, the table begins with the states' offsets. Actions are
// gone through by their offsets, since what is asked is whether they are actions.
pub(crate) fn read_fields(s: &[u8], table: &mut [u32], states: usize) -> Result<(), Refusal>
    requires { (states ≤ length table.old) × (head_size ≤ length s.now) × (length s.now ≤ max_bytes) }
    ensures value { result ≡ verdict (first_no (read_questions states (drop head_size s.now))) }
    ensures table_after { nodes_good states (drop head_size s.now) ≡ true → table.new ≡
        offsets_from head_size (nodes_read states (drop head_size s.now)) ++ drop states table.old }
{
    let mut at = format::HEAD_SIZE;
    let mut counts = true;
    'states: {
        for entry in &mut table[..states] {
            *entry = at as u32;
            if byte_at(s, at) == format::TERMINAL_TAG {
                if !field_fits(s, at, format::TERMINAL_LENGTH) {
                    break 'states;
                }
                at += format::TERMINAL_SIZE;
                continue;
            }
            let header = at;
            let Some(size) = header_size(s, header) else {
                break 'states;
            };
            at += size;
            let mut n = 0;
            while byte_at(s, at) == format::ACTION_TAG {
                if n == MAX_ACTIONS {
                    break 'states;
                }
                let Some(length) = action_length(s, at) else {
                    break 'states;
                };
                n += 1;
                at += length;
            }
            counts = counts && count_right(s, header, n);
        }
        if at == s.len() {
            return if counts {
                Ok(())
            } else {
                Err(Question::Count.into())
            };
        }
    }
    Err(Question::Fields.into())
}
