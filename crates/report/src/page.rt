//! A buffer that is written from its start: each byte is stored once, in its final place, and none
//! is read back or overwritten.

ghost use Rattle.std.specs.Prelude.{◌≡◌, decimal};
ghost use Rattle.report.specs.Pages.{Room, Wrote};
ghost use Rattle.report.specs.Printed.{figures, row};

use itoa::Buffer;

// The bytes before `at` are written, those from there on are the caller's. The buffer is lent by the caller and
// keeps its bytes behind the report, so it is no `Vec`; and `write!` on it could fail where a report must not.
#[derive(Drop)]
pub(crate) struct Page<'a> {
    pub(crate) out: &'a mut [u8],
    pub(crate) at: usize,
}

impl Page<'_> {
    pub(crate) fn text(&mut self, bytes: &[u8])
        requires { Room self.old bytes.now }
        ensures { Wrote self.old self.new bytes.now }
    {
        let end = self.at + bytes.len();
        self.out[self.at..end].copy_from_slice(bytes);
        self.at = end;
    }

    pub(crate) fn number(&mut self, n: u64)
        requires { Room self.old (decimal n) }
        ensures { Wrote self.old self.new (decimal n) }
    {
        let mut digits = Buffer::new();
        self.text(digits.format(n).as_bytes());
    }

    // Numbers, each behind a space.
    pub(crate) fn figures(&mut self, numbers: &[u64])
        requires { Room self.old (figures numbers.now) }
        ensures { Wrote self.old self.new (figures numbers.now) }
    {
        for n in numbers {
            self.text(b" ");
            self.number(*n);
        }
    }

    // A line: a word, figures and the byte that ends it.
    pub(crate) fn row(&mut self, word: &[u8], numbers: &[u64])
        requires { Room self.old (row word.now numbers.now) }
        ensures { Wrote self.old self.new (row word.now numbers.now) }
    {
        self.text(word);
        self.figures(numbers);
        self.text(b"\n");
    }
}
