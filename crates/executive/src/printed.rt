//! How the answers to the two questions are printed: two figures, a space between them.

ghost use Rattle.std.specs.Prelude.{Some};
ghost use Rattle.executive.specs.Printed.{release_text, deviating_text};

use crate::questions::{Deviating, Release};
use std::fmt;

impl fmt::Display for Release {
    ghost output = { λ r. Some (release_text r) };

    fn fmt<W: fmt::Write>(&self, f: &mut fmt::Formatter<W>) -> fmt::Result {
        let Release { instant, line } = *self;
        write!(f, "{instant} {line}")
    }
}

impl fmt::Display for Deviating {
    ghost output = { λ d. Some (deviating_text d) };

    fn fmt<W: fmt::Write>(&self, f: &mut fmt::Formatter<W>) -> fmt::Result {
        let Deviating { line, largest } = *self;
        write!(f, "{line} {largest}")
    }
}
