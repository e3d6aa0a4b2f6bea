//! Where a text is cut into lines, and a line into fields.

ghost use Rattle.std.specs.Prelude.{◌≡◌, ◌==◌, false, ◌∷◌, ◌++◌, position, All, MatchOption};
ghost use Rattle.std.specs.Iterator.{item_count, YieldsFirstRef};
ghost use Rattle.sheet.specs.Cutting.{lines_of, fields_of};
ghost use Rattle.sheet.specs.FieldReader.{fields_left};

// The place of the first `byte`.
fn first_of(s: &[u8], byte: u8) -> Option<usize>
    ensures { result ≡ position (λ b. b == byte) s.now }
{
    s.iter().position(|b| *b == byte)
}

// What stands before the first `byte`, and what stands behind it.
#[tactic(auto, using(crate::proofs::Cuts::nowhere))]
pub fn split_once(s: &[u8], byte: u8) -> Option<(&[u8], &[u8])>
    ensures { MatchOption result (All (λ b. (b == byte) ≡ false) s.now) (λ p. (s.now ≡ p.0.now ++ byte ∷ p.1.now) × All (λ b. (b == byte) ≡ false) p.0.now) }
{
    let n = first_of(s, byte)?;
    Some((&s[..n], &s[n + 1..]))
}

// The first field of a line, and what follows the space behind it.
#[tactic(auto, using(std::proofs::lemmas::List::Splits::slice_split_at, std::proofs::lemmas::List::Splits::slice_split_none))]
pub(crate) fn first_field<'a>(s: &'a [u8]) -> (&'a [u8], Option<&'a [u8]>)
    ensures { fields_of s.now ≡ result.0.now ∷ fields_left result.1 }
{
    match split_once(s, b' ') {
        Some((field, rest)) => (field, Some(rest)),
        None => (s, None),
    }
}

// The lines of a text, each without the byte that ends it. `split` would give one more, the empty line behind the last byte 10.
#[derive(Drop)]
pub struct Lines<'a>(pub &'a [u8]);

impl<'a> Iterator for Lines<'a> {
    type Item = &'a [u8];

    ghost next_gives = { YieldsFirstRef (λ s. lines_of s.0.now) };

    ghost remaining = { item_count (λ s. lines_of s.0.now) };

    #[tactic(auto, using(crate::proofs::Cuts::lines_at, crate::proofs::Cuts::lines_end))]
    fn next(&mut self) -> Option<&'a [u8]> {
        if self.0.is_empty() {
            return None;
        }
        let (line, rest) = split_once(self.0, b'\n').unwrap_or((self.0, &[]));
        self.0 = rest;
        Some(line)
    }
}
