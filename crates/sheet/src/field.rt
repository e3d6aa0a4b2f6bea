//! The fields that a line of a sheet is cut into.

// Task lines count from 1, and so do the fields of a line.
#[derive(Clone, Copy)]
pub struct Place {
    pub line: u32,
    pub field: u32,
}

// A part of the caller's text, never a copy, with its place.
#[derive(Clone, Copy)]
pub enum Field<'a> {
    Kind(&'a [u8], Place),
    Name(&'a [u8], Place),
    Number(&'a [u8], Place),
}

// What is left of a line, and the place of its next field; `None` behind the last field.
#[derive(Drop)]
pub struct Fields<'a> {
    pub(crate) rest: Option<&'a [u8]>,
    pub(crate) place: Place,
}
