//! The reader of a line: it hands out field by field, and reads them as a task. That a reading took one field
//! (`moved`) is a clause of each reading: it is what that reading did, and no fact of the type.

ghost use Rattle.std.specs.Prelude.{◌≡◌, ◌<◌, OnOk};
ghost use Rattle.std.specs.Iterator.{item_count};
ghost use Rattle.model.specs.declared.fault.Fault.TheVariants.{Malformed};
ghost use Rattle.sheet.specs.Cutting.{fields_of};
ghost use Rattle.sheet.specs.FieldReader.{left, Yields, Moved};
ghost use Rattle.sheet.specs.Reading.{read_kind, read_name, read_number, read_end};

use crate::cutting::first_field;
use crate::field::{Field, Fields, Place};
use crate::values::{is_name, kind_of, number_of};
use model::fault::Fault;
use model::kind::Kind;

// A reader at the first field of a line.
pub fn fields(text: &[u8], line: u32) -> Fields<'_>
    ensures rest { left result ≡ fields_of text.now }
    ensures line { result.place.line ≡ line }
    ensures first { result.place.field ≡ 1 }
{
    Fields {
        rest: Some(text),
        place: Place { line, field: 1 },
    }
}

impl<'a> Iterator for Fields<'a> {
    type Item = Field<'a>;

    ghost next_gives = { Yields };

    ghost remaining = { item_count left };

    // The next field, cut off at the next space; `None` behind the last.
    fn next(&mut self) -> Option<Field<'a>> {
        let (part, rest) = first_field(self.rest?);
        let place = self.place;
        self.rest = rest;
        self.place.field = place.field.saturating_add(1);
        match place.field {
            1 => Some(Field::Kind(part, place)),
            2 => Some(Field::Name(part, place)),
            _ => Some(Field::Number(part, place)),
        }
    }
}

impl Fields<'_> {
    // The fault of a field that is missing, superfluous or not in its form.
    fn malformed(&self) -> Fault
        ensures { result ≡ Malformed self.now.place.line self.now.place.field }
    {
        Fault::Malformed {
            line: self.place.line,
            field: self.place.field,
        }
    }

    // The kind of the line; where `full`, a regular one is refused before its other fields.
    pub(crate) fn read_kind(&mut self, full: bool) -> Result<Kind, Fault>
        requires { self.old.place.field ≡ 1 }
        ensures value { result ≡ read_kind self.old.place.line full (left self.old) }
        ensures moved { OnOk result (Moved self.old self.new) }
    {
        let malformed = self.malformed();
        let Some(Field::Kind(part, place)) = self.next() else {
            return Err(malformed);
        };
        match kind_of(part) {
            Some(Kind::Regular) if full => Err(Fault::TooManyRegular { line: place.line }),
            Some(kind) => Ok(kind),
            None => Err(malformed),
        }
    }

    // A name, which nothing later needs.
    pub(crate) fn read_name(&mut self) -> Result<(), Fault>
        requires { self.old.place.field ≡ 2 }
        ensures value { result ≡ read_name self.old.place.line (left self.old) }
        ensures moved { OnOk result (Moved self.old self.new) }
    {
        let malformed = self.malformed();
        match self.next() {
            Some(Field::Name(part, _)) if is_name(part) => Ok(()),
            _ => Err(malformed),
        }
    }

    // A number from `low` to 60,000.
    pub(crate) fn read_number(&mut self, low: u32) -> Result<u32, Fault>
        requires { 2 < self.old.place.field }
        ensures value { result ≡ read_number self.old.place.line self.old.place.field low (left self.old) }
        ensures moved { OnOk result (Moved self.old self.new) }
    {
        let malformed = self.malformed();
        let Some(Field::Number(part, place)) = self.next() else {
            return Err(malformed);
        };
        let n = number_of(part).ok_or(malformed)?;
        if (low..=60000).contains(&n) {
            Ok(n)
        } else {
            Err(Fault::OutOfRange {
                line: place.line,
                field: place.field,
            })
        }
    }

    // No field is left.
    pub(crate) fn read_end(&mut self) -> Result<(), Fault>
        requires { self.old.place.field ≡ 7 }
        ensures { result ≡ read_end self.old.place.line (left self.old) }
    {
        let malformed = self.malformed();
        match self.next() {
            None => Ok(()),
            Some(_) => Err(malformed),
        }
    }
}
