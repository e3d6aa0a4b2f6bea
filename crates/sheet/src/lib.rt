//! Text to sheet: a task sheet is read line by line and field by field, and the first fault in the
//! order of the text is what reading replies.

#![tactic(auto)]

pub mod cutting;
pub mod field;
pub mod reader;
pub mod sheet;
mod task_lines;
mod text;
mod values;
