//! The commands of a script.

use crate::text::number;
use runs::call::Call;
use sheet::cutting::split_once;

#[derive(Clone, Copy)]
pub(crate) enum Command {
    Step(u64),
    Run(u64),
    Call(Call),
    Counts,
    Figures,
    Coming,
    Worst,
}

// `resume`, a space and 20 digits.
const LONGEST: usize = 27;

impl Command {
    // A command is a word, or a word, one space and a number; any other line is none. A line that is too long for any is
    // not looked through.
    pub(crate) fn parse(line: &[u8]) -> Option<Command> {
        if line.len() > LONGEST {
            return None;
        }
        match split_once(line, b' ') {
            None => Command::of_word(line),
            Some((word, digits)) => Command::of_number(word, number(digits)?),
        }
    }

    fn of_word(word: &[u8]) -> Option<Command> {
        match word {
            b"step" => Some(Command::Step(1)),
            b"end" => Some(Command::Call(Call::EarlyEnd)),
            b"counts" => Some(Command::Counts),
            b"figures" => Some(Command::Figures),
            b"coming" => Some(Command::Coming),
            b"worst" => Some(Command::Worst),
            _ => None,
        }
    }

    fn of_number(word: &[u8], number: u64) -> Option<Command> {
        match word {
            b"step" => Some(Command::Step(number)),
            b"run" => Some(Command::Run(number)),
            b"rest" => Some(Command::Call(Call::Rest { number })),
            b"resume" => Some(Command::Call(Call::Resume { number })),
            _ => None,
        }
    }
}
