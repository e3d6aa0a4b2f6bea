//! Task lines: one line field by field, then line after line.

ghost use Rattle.std.specs.Prelude.{◌≡◌, ℕ, List, ◌∷◌, Ok, Err, MatchResult};
ghost use Rattle.model.specs.Ranges.{regulars};
ghost use Rattle.sheet.specs.Cutting.{lines_of};
ghost use Rattle.sheet.specs.FieldReader.{left};
ghost use Rattle.sheet.specs.Reading.{read_figures, read_line, read_tasks};

use crate::cutting::Lines;
use crate::field::Fields;
use crate::reader::fields;
use arrayvec::ArrayVec;
use model::fault::Fault;
use model::kind::Kind;
use model::line::Line;

// The figures of a line and its end, by a reader that has passed kind and name.
fn read_figures(rest: &mut Fields, kind: Kind) -> Result<Line, Fault>
    requires { rest.old.place.field ≡ 3 }
    ensures { result ≡ read_figures rest.old.place.line kind (left rest.old) }
{
    let offset = rest.read_number(0)?;
    let length = rest.read_number(1)?;
    let deadline = rest.read_number(length)?;
    let period = rest.read_number(deadline)?;
    rest.read_end()?;
    Ok(Line {
        kind,
        offset,
        length,
        deadline,
        period,
    })
}

// `full` says that no further regular line may come.
fn read_line(text: &[u8], line: u32, full: bool) -> Result<Line, Fault>
    ensures { result ≡ read_line line full text.now }
{
    let mut rest = fields(text, line);
    let kind = rest.read_kind(full)?;
    rest.read_name()?;
    read_figures(&mut rest, kind)
}

#[tactic(auto, using(crate::proofs::Regulars::regulars_counts))]
fn count_regular(lines: &[Line]) -> usize
    ensures { result ≡ regulars lines.now }
{
    lines.iter().filter(|l| l.is_regular()).count()
}

// One line more, behind those in `lines`.
fn read_next(text: &[u8], lines: &mut ArrayVec<Line, 24>) -> Result<(), Fault>
    ensures { (ts : List (List ℕ)) → MatchResult result (λ _. read_tasks lines.old.items (text.now ∷ ts) ≡ read_tasks lines.new.items ts) (λ e. read_tasks lines.old.items (text.now ∷ ts) ≡ Err e) }
{
    if lines.is_full() {
        return Err(Fault::TooManyLines { line: 25 });
    }
    let full = count_regular(lines) >= 8;
    let line = read_line(text, lines.len() as u32 + 1, full)?;
    lines.push(line);
    Ok(())
}

// The task lines that are left of a text, behind those in `lines`.
pub(crate) fn read_tasks(texts: Lines, lines: &mut ArrayVec<Line, 24>) -> Result<(), Fault>
    ensures { MatchResult result (λ _. read_tasks lines.old.items (lines_of texts.entry.0.now) ≡ Ok lines.new.items) (λ e. read_tasks lines.old.items (lines_of texts.entry.0.now) ≡ Err e) }
{
    for text in texts {
        read_next(text, lines)?;
    }
    Ok(())
}
