//! A script as text: where the sheet ends, and the numbers on a line.

const START: &[u8] = b"start ";

const START_BELOW: &[u8] = b"\nstart ";

// The sheet, and what stands from the first line that begins with `start ` on.
pub(crate) fn split_at_start(input: &[u8]) -> (&[u8], &[u8]) {
    if input.starts_with(START) {
        return input.split_at(0);
    }
    let mut windows = input.windows(START_BELOW.len());
    match windows.position(|w| w == START_BELOW) {
        Some(n) => input.split_at(n + 1),
        None => input.split_at(input.len()),
    }
}

// 1 to 20 digits that make a number of 64 bits.
pub(crate) fn number(digits: &[u8]) -> Option<u64> {
    if digits.len() > 20 || !digits.iter().all(u8::is_ascii_digit) {
        return None;
    }
    str::from_utf8(digits).ok()?.parse().ok()
}

pub(crate) fn start_instant(line: &[u8]) -> Option<u64> {
    number(line.strip_prefix(START)?)
}
