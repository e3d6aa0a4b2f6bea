//! One release of a line, as a ranking sees it.

use crate::kind::Kind;

#[derive(Clone, Copy)]
pub struct Job {
    pub line: u32,
    pub kind: Kind,
    pub release: u64,
    pub deadline: u32,
    pub period: u32,
}
