//! One task line, from the sheet to the report.

ghost use Rattle.std.specs.Prelude.{◌≡◌};
ghost use Rattle.model.specs.Ranges.{is_regular};

use crate::kind::Kind;

// On a sheet `offset` and `deadline` are as the writer gave them; in a plan they are what planning
// made of them. `deadline` counts from the release.
#[derive(Clone, Copy, Default)]
pub struct Line {
    pub kind: Kind,
    pub offset: u32,
    pub length: u32,
    pub deadline: u32,
    pub period: u32,
}

impl Line {
    pub fn is_regular(&self) -> bool
        ensures { result ≡ is_regular self.now }
    {
        self.kind == Kind::Regular
    }
}
