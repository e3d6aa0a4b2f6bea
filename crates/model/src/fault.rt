//! Every refusal of the product, as one type that `?` carries from where it arises to the printed line.

ghost use Rattle.std.specs.Prelude.{◌≡◌, Some};
ghost use Rattle.model.specs.Faults.{code_of, fault_text};
ghost use Rattle.model.specs.declared.fault.Fault.TheVariants.{NoMemory};

use std::alloc::AllocError;
use std::error::Error;
use std::fmt;

#[derive(Clone, Copy, Debug)]
pub enum Fault {
    // the sheet's writer
    TextTooLong,
    TextNotEnded,
    Malformed { line: u32, field: u32 },
    OutOfRange { line: u32, field: u32 },
    TooManyLines { line: u32 },
    TooManyRegular { line: u32 },
    // planning
    HyperperiodTooLong { line: u32 },
    PairTooLong { first: u32, second: u32 },
    NoOffsets,
    DeadlineTooShort { line: u32 },
    // rehearsal
    Overload,
    Missed { instant: u64, line: u32 },
    Unsettled,
    // the firmware
    ClockAtEnd { clock: u64 },
    NoJob,
    NoSuchLine { number: u64 },
    RegularLine { line: u32 },
    RestAsItIs { line: u32 },
    // the surrounding program
    BufferTooSmall,
    NoMemory,
}

// A fault as it is reported. A missing place is 0 and no `Option`, since the printed line always has both.
#[derive(Clone, Copy, PartialEq, Eq, Debug)]
pub struct FaultCode {
    pub number: u32,
    pub layer: u32,
    pub first: u64,
    pub second: u64,
}

impl Fault {
    pub fn code(&self) -> FaultCode
        ensures { result ≡ code_of self.now }
    {
        let (number, layer, first, second) = match *self {
            Fault::TextTooLong => (11, 1, 0, 0),
            Fault::TextNotEnded => (12, 1, 0, 0),
            Fault::Malformed { line, field } => (13, 1, line as u64, field as u64),
            Fault::OutOfRange { line, field } => (14, 1, line as u64, field as u64),
            Fault::TooManyLines { line } => (15, 1, line as u64, 0),
            Fault::TooManyRegular { line } => (16, 1, line as u64, 1),
            Fault::HyperperiodTooLong { line } => (20, 2, line as u64, 0),
            Fault::PairTooLong { first, second } => (21, 2, first as u64, second as u64),
            Fault::NoOffsets => (22, 2, 0, 0),
            Fault::DeadlineTooShort { line } => (23, 2, line as u64, 0),
            Fault::Overload => (25, 3, 0, 0),
            Fault::Missed { instant, line } => (26, 3, instant, line as u64),
            Fault::Unsettled => (27, 3, 0, 0),
            Fault::ClockAtEnd { clock } => (31, 4, clock, 0),
            Fault::NoJob => (32, 4, 0, 0),
            Fault::NoSuchLine { number } => (33, 4, number, 0),
            Fault::RegularLine { line } => (34, 4, line as u64, 0),
            Fault::RestAsItIs { line } => (35, 4, line as u64, 0),
            Fault::BufferTooSmall => (41, 5, 1024, 0),
            Fault::NoMemory => (0, 5, 0, 0),
        };
        FaultCode {
            number,
            layer,
            first,
            second,
        }
    }
}

impl From<AllocError> for Fault {
    ghost from_gives = { λ _ r. r ≡ NoMemory };

    fn from(_e: AllocError) -> Fault {
        Fault::NoMemory
    }
}

// The word `fault`, the number, the layer and the two places.
impl fmt::Display for Fault {
    ghost output = { λ f. Some (fault_text f) };

    fn fmt<W: fmt::Write>(&self, f: &mut fmt::Formatter<W>) -> fmt::Result {
        let FaultCode {
            number,
            layer,
            first,
            second,
        } = self.code();
        write!(f, "fault {number} {layer} {first} {second}")
    }
}

impl Error for Fault {}
