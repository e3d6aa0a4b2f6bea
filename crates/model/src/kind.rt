//! What a line promises: a regular line keeps its period to the unit, an ordinary one fits around.

#[derive(Clone, Copy, PartialEq, Eq, PartialOrd, Ord, Debug, Default)]
pub enum Kind {
    #[default]
    Ordinary,
    Regular,
}
