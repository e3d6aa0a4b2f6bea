//! How what an executive tells is printed: its figures, a space between each two.

ghost use Rattle.std.specs.Prelude.{Some};
ghost use Rattle.runs.specs.Printed.{report_text, counts_text, figures_text};

use crate::call::{CountsReport, StepReport, UnitReport};
use crate::jitter::Figures;
use std::fmt;

// The line, 0 where the unit was idle, and 0 or 1 for whether its job began and ended.
impl fmt::Display for StepReport {
    ghost output = { λ r. Some (report_text r) };

    fn fmt<W: fmt::Write>(&self, f: &mut fmt::Formatter<W>) -> fmt::Result {
        let struck = self.struck;
        let UnitReport { line, began, ended } = self.unit.unwrap_or_default();
        let began = began as u8;
        let ended = ended as u8;
        write!(f, "{line} {began} {ended} {struck}")
    }
}

impl fmt::Display for CountsReport {
    ghost output = { λ c. Some (counts_text c) };

    fn fmt<W: fmt::Write>(&self, f: &mut fmt::Formatter<W>) -> fmt::Result {
        let CountsReport {
            made,
            ended,
            missed,
            aside,
            pending,
        } = *self;
        write!(f, "{made} {ended} {missed} {aside} {pending}")
    }
}

impl fmt::Display for Figures {
    ghost output = { λ x. Some (figures_text x) };

    fn fmt<W: fmt::Write>(&self, f: &mut fmt::Formatter<W>) -> fmt::Result {
        let Figures {
            number,
            sum,
            largest,
            numerator,
            denominator,
        } = *self;
        write!(f, "{number} {sum} {largest} {numerator} {denominator}")
    }
}
