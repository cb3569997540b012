// What a line of the text asks for.
use super::bytes::Sheet;
use super::cases::{Options, case};
use super::chain::chain;
use super::text::{Command, Line, On};
use std::mem;

// What lines before have left: the base, the last case's sheet, and the options of the next case.
#[derive(Drop)]
pub(crate) struct State {
    base: Sheet,
    sheet: Sheet,
    options: Options,
}

impl State {
    // The state before the first line.
    pub(crate) fn new() -> State {
        State {
            base: Sheet::new(),
            sheet: Sheet::new(),
            options: Options::default(),
        }
    }

    // Does what a line asks for.
    pub(crate) fn obey(&mut self, rt: &impl Print, line: &Line) {
        let first = line.first as usize;
        let last = line.last as usize;
        match line.command {
            Command::Nothing => {}
            Command::Base => {
                self.base.clear();
                self.base.extend(rt, line.bytes());
            }
            Command::Further => self.base.extend(rt, line.bytes()),
            Command::Repeat => self.base.repeat(rt, first, last),
            Command::Chain => chain(rt, &mut self.base, line.last),
            Command::Budget => self.options.budget = line.last,
            Command::Length => self.options.bytes = last,
            // a table of 0 entries is none that the case's line speaks of
            Command::Entries => self.options.entries = Some(last).filter(|n| *n > 0),
            Command::Shown => self.options.shown = first..last,
            Command::Case(call, on) => {
                if matches!(on, On::Base) {
                    self.sheet = self.base;
                }
                self.sheet.overwrite(rt, first, line.bytes());
                case(rt, call, &mut self.sheet, mem::take(&mut self.options));
            }
        }
    }
}
