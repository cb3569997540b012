// Runs the worked examples (S11), and each question (S4) on both sides of its limit, through the compiled `solve` and `check`, and prints
// the answers. The cases are a text, `stdin`, a group for each sheet. A case's line is its label and then what happened; `stdout` holds
// them to what is expected. Its expectations come from the specification and were worked out by hand, not taken from a run. Where `solve`
// refuses a sheet and changes a byte of it, the line has the word `changed`, and where the text cannot be read, the word `slip`; `stdout`
// has neither of the two anywhere.
//
// What the lines of the text mean stands at its head.
//
// Every case has a table of garbage, 7, 8, 9 and so on: what a table held does not matter.
//
// The tables of S11 give these lines, but for three: those of the cases by `!` and `+`, except `A-to-settle`, `bytes-60000-worked` and the
// `-table` lines; and those of the cases by `?` whose labels end in `-check`, and of `ending-70-value-1000000001` and the one after it.
// S11.15 and S11.47 say of 16 checks, and S11.15 of 16 findings, only that they are accepted; that working them gives `settled 1 2 1`
// follows from S6: every check costs 1 and every ending 0, so pass 1 finds each price, 1, above the start's value, 0, raises that to 1 and
// fails, and pass 2 succeeds with no raise.
//
// The other lines are worked out from S4: each is at the limit of the question that stands above it in the text. These took a sum besides.
// - `bytes-60000`: 8 + 716 * 83 + 47 * 12 bytes, so the last stage, 762, is at 60,000 - 12 = 59,988, and entry 763 is 0. Worked, it is as
//   above.
// - `stages-4096`: 8 + 4,095 * 12 = 49,148 is the last stage's offset, so it has 49,160 bytes. 4,097 stages have 49,172 bytes, so question
//   2 passes and 3 refuses. 1,024 and 1,025 stages have 12,296 and 12,308 bytes, and their last stages the offsets 12,284 and 12,296.
// - `ending-value-1000000001`, `junction-value-1000000001`: in the range of question 5, and above the cost 1,000,000 and the price 100:
//   question 7.
// - `bytes-17`, `checks-0`: a junction without checks is in place (S4.4), and passes the others.
// - `A-settled-chosen-0`: the output for A (S11.16) says that the start chose check 1 at 500. Check 0 then costs 200 + 400, since pass 2
//   raised stage 1 to 400, and 600 is not 500: question 8. Check 2 is out of range: question 5.
// - `B-settled` has the least costs 150, 30 and 50 of the row B worst. With a finding open again, or at 149, question 8 refuses it.
// - `-table` lines: the table's entries were 7, 8, 9 and so on. Refusal 1 leaves them (S5.4), 2 to 10 make all of them 0 (S5.5), past the
//   4,096th too; accepted or worked (S11.20), the entries are A's offsets 8, 37, 57, 69, or J's 8, 38, 58, 70, and every entry past the
//   last stage is 0 (S3.5): 4,096 - 4 and 4,200 - 4 of them.
#![tactic(auto)]

mod words; // words.rt: words and numbers on standard output
mod bytes; // bytes.rt: a sheet in a buffer
mod chain; // chain.rt: the junctions of the chain of S11.13
mod table; // table.rt: the index table before a call and after it
mod answers; // answers.rt: what `check` and `solve` answer
mod cases; // cases.rt: a case and its options
mod text; // text.rt: a line of the text, read a byte at a time
mod commands; // commands.rt: what a line asks for

ghost use Rattle.std.specs.Counts.{IsPrefixLen};

use commands::State;
use std::io::Read;
use text::Line;
use words::slip;

// A byte more than a sheet may have.
const MOST: usize = 60001;

// The entries of the longest table.
const LONGEST: usize = 4200;

// A byte more than the text of the cases may have.
const LONGEST_TEXT: usize = 65536;

// Runs the cases of a text.
fn run(rt: &impl Print, text: &[u8]) {
    let mut state = State::new();
    let mut line = Line::new();
    for &b in text {
        if b == b'\n' {
            line.end(rt);
            state.obey(rt, &line);
            line = Line::new();
        } else {
            line.read(rt, b);
        }
    }
}

// Reads until the buffer is full, the input ends or a read fails, and answers how many bytes it has of the input. The standard library has
// nothing that fills a buffer without a heap and says how far.
fn read_full(from: &mut impl Read, buf: &mut [u8]) -> usize
    ensures { IsPrefixLen result buf.new }
{
    let mut done = 0;
    while done < buf.len() {
        match from.read(&mut buf[done..]) {
            Ok(0) | Err(_) => break,
            Ok(n) => done += n,
        }
    }
    done
}

// Runs the cases of the text on standard input. A text that fills the buffer is a slip.
fn main(rt: HostRuntime) {
    let mut text = [0u8; LONGEST_TEXT];
    let n = read_full(&mut rt.stdin(), &mut text);
    if n < text.len() {
        run(&rt, &text[..n]);
    } else {
        slip(&rt);
    }
}
