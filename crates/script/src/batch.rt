//! A batch of texts: records one behind the other, each the length of a text in decimal, the byte 10, and the
//! text.

ghost use Rattle.std.specs.Prelude.{◌≡◌, length, IfSome};
ghost use Rattle.std.specs.Iterator.{at_most};
ghost use Rattle.script.specs.Batches.{IsRecord, Gives};

use sheet::cutting::split_once;

// What is left of a batch. It ends where no whole record is left.
#[derive(Drop)]
pub struct Records<'a> {
    rest: &'a [u8],
}

impl<'a> Records<'a> {
    pub fn new(batch: &'a [u8]) -> Records<'a>
        ensures { result.rest.now ≡ batch.now }
    {
        Records { rest: batch }
    }
}

// None where a byte is no digit. No `parse`: an empty header counts as 0, and a length that fits no record saturates.
fn length_of(digits: &[u8]) -> Option<usize> {
    digits.iter().try_fold(0usize, |n, b| {
        let digit = (*b as char).to_digit(10)?;
        Some(n.saturating_mul(10).saturating_add(digit as usize))
    })
}

// The text of the next record, and what follows it.
pub fn next_record(batch: &[u8]) -> Option<(&[u8], &[u8])>
    ensures { IfSome result (λ p. IsRecord batch.now p.0.now p.1.now) }
{
    let (header, texts) = split_once(batch, b'\n')?;
    texts.split_at_checked(length_of(header)?)
}

impl<'a> Iterator for Records<'a> {
    type Item = &'a [u8];

    ghost next_gives = { Gives };

    ghost remaining = { λ s. at_most (length s.rest.now) };

    fn next(&mut self) -> Option<&'a [u8]> {
        let (text, rest) = next_record(self.rest)?;
        self.rest = rest;
        Some(text)
    }
}
