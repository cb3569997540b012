// A line of the text, read a byte at a time.
ghost use Rattle.rows.specs.declared.text.TheConstants.{ROOM};
ghost use Rattle.std.specs.Prelude.{◌<◌, ◌≤◌, IfSome};

use super::words::{slip, word};

// The most bytes that stand in a line.
const ROOM: usize = 64;

// From this number on no digit more is taken, though behind it itself some would fit; below it every one fits 64 bits.
const FULL: u64 = u64::MAX / 10;

// The function that a case calls.
#[derive(Clone, Copy)]
pub(crate) enum Call {
    Check,
    Solve,
}

// What a case is run on: a copy of the base, or the sheet as the last case left it.
#[derive(Clone, Copy)]
pub(crate) enum On {
    Base,
    Last,
}

// What a line asks for, which its first byte says.
#[derive(Clone, Copy)]
pub(crate) enum Command {
    Nothing,
    Base,
    Further,
    Repeat,
    Chain,
    Budget,
    Length,
    Entries,
    Shown,
    Case(Call, On),
}

// What the next byte of a line belongs to: its command, its label, a number in decimal, bytes in hexadecimal, or nothing.
#[derive(Clone, Copy)]
enum Part {
    Command,
    Label,
    Number,
    Bytes,
    Comment,
}

// A line as far as it is read: its command, what the next byte belongs to, the number before the last space and the one after it, a
// hexadecimal digit that waits for its second, and its bytes.
#[derive(Clone, Copy)]
pub(crate) struct Line {
    pub(crate) command: Command,
    part: Part,
    pub(crate) first: u64,
    pub(crate) last: u64,
    half: Option<u8>,
    buffer: [u8; ROOM],
    count: usize,
    ghost in_room: { count ≤ ROOM },
}

// The value of a hexadecimal digit. The standard library has none for a byte.
fn digit(b: u8) -> Option<u8>
    ensures { IfSome result (λ d. d < 16) }
{
    match b {
        b'0'..=b'9' => Some(b - b'0'),
        b'A'..=b'F' => Some(b - b'A' + 10),
        _ => None,
    }
}

// A number with one digit more, where it takes one.
fn longer(x: u64, b: u8) -> Option<u64> {
    if b.is_ascii_digit() && x < FULL {
        Some(x * 10 + u64::from(b - b'0'))
    } else {
        None
    }
}

impl Line {
    // A line that has not begun.
    pub(crate) fn new() -> Line {
        Line {
            command: Command::Nothing,
            part: Part::Command,
            first: 0,
            last: 0,
            half: None,
            buffer: [0; ROOM],
            count: 0,
        }
    }

    // The bytes that stand in the line.
    pub(crate) fn bytes(&self) -> &[u8] {
        &self.buffer[..self.count]
    }

    // The first byte of a line. No other begins one, which is a slip.
    fn begin(&mut self, rt: &impl Print, b: u8) {
        let (command, part) = match b {
            b'#' => (Command::Nothing, Part::Comment),
            b'=' => (Command::Base, Part::Bytes),
            b' ' => (Command::Further, Part::Bytes),
            b'*' => (Command::Repeat, Part::Number),
            b'>' => (Command::Chain, Part::Number),
            b'$' => (Command::Budget, Part::Number),
            b'^' => (Command::Length, Part::Number),
            b'%' => (Command::Entries, Part::Number),
            b'&' => (Command::Shown, Part::Number),
            b'?' => (Command::Case(Call::Check, On::Base), Part::Label),
            b'!' => (Command::Case(Call::Solve, On::Base), Part::Label),
            b'.' => (Command::Case(Call::Check, On::Last), Part::Label),
            b'+' => (Command::Case(Call::Solve, On::Last), Part::Label),
            _ => {
                slip(rt);
                (Command::Nothing, Part::Comment)
            }
        };
        self.command = command;
        self.part = part;
    }

    // A digit of a number, or the space behind it, after which a case's line has bytes and any other another number.
    fn number(&mut self, rt: &impl Print, b: u8) {
        if b == b' ' {
            self.first = self.last;
            self.last = 0;
            if matches!(self.command, Command::Case(..)) {
                self.part = Part::Bytes;
            }
        } else if let Some(x) = longer(self.last, b) {
            self.last = x;
        } else {
            slip(rt);
        }
    }

    // A hexadecimal digit, or a space between two bytes. Any other byte is a slip, and so is a byte more than a line has room for.
    fn hexadecimal(&mut self, rt: &impl Print, b: u8) {
        if b == b' ' {
            return;
        }
        let low = digit(b);
        if low.is_none() {
            slip(rt);
        }
        let Some(high) = self.half.take() else {
            self.half = low;
            return;
        };
        if self.count < ROOM {
            self.buffer[self.count] = high << 4 | low.unwrap_or(0);
            self.count += 1;
        } else {
            slip(rt);
        }
    }

    // A byte of a line.
    pub(crate) fn read(&mut self, rt: &impl Print, b: u8) {
        match self.part {
            Part::Command => self.begin(rt, b),
            Part::Label if b == b' ' => self.part = Part::Number,
            Part::Label => word(rt, &[b]),
            Part::Number => self.number(rt, b),
            Part::Bytes => self.hexadecimal(rt, b),
            Part::Comment => {}
        }
    }

    // The end of a line. A digit that waits there is a slip.
    pub(crate) fn end(&self, rt: &impl Print) {
        if self.half.is_some() {
            slip(rt);
        }
    }
}
