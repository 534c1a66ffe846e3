ghost use Rattle.std.specs.Prelude.{◌≡◌, Some};
ghost use Rattle.netlist.specs.Refusals.{number as number_of, refusal_line};

use std::fmt;

/// Why a call refuses. The numbers are those of docs/refusals.md, and none is ever given to another cause.
#[derive(Clone, Copy, PartialEq, Eq, Debug)]
pub enum Cause {
    /// A file ends too early; place: its length.
    EndsEarly = 1,
    /// A count out of range; place: its first byte.
    CountOutOfRange = 2,
    /// A kind, name length, name byte, module number or queue size out of range; its place.
    ValueOutOfRange = 3,
    /// A byte after the last section; its place.
    ByteAfterEnd = 4,
    /// A relay station without exactly one input channel, or without an output channel; the lowest.
    RelayEnds = 5,
    /// A module that is not joined to module 1, directions ignored; the lowest.
    NotJoined = 6,
    /// A module on a ring of relay stations only; the lowest.
    RelayRing = 7,
    /// A target out of range.
    TargetOutOfRange = 8,
    /// A sizing or cap table of wrong length (place 0), or with a byte out of range (its channel).
    SizesOutOfRange = 9,
    /// An allowance above 8.
    AllowanceOutOfRange = 10,
    /// No candidate reaches the target.
    Unreachable = 11,
    /// Hold, step or front before prime, or a second prime.
    OutOfTurn = 12,
    /// A module or channel number out of range.
    NumberOutOfRange = 13,
    /// An item table that is too short; place: the least length that does.
    ItemsTooShort = 14,
    /// A step after the last that is allowed, or a forecast beyond its limit.
    BeyondLimit = 15,
    /// Another list that is too short; place: the least length that does.
    ListTooShort = 16,
}

impl Cause {
    /// The number of the cause.
    pub fn number(self) -> u8
        ensures { result ≡ number_of self }
    {
        self as u8
    }

    /// A refusal for this cause at a place.
    pub fn at(self, place: usize) -> Refusal
        ensures { result ≡ record { cause = self; place = place } }
    {
        Refusal { cause: self, place }
    }
}

impl From<Cause> for u8 {
    ghost from_gives = { λ cause number. number ≡ number_of cause };

    fn from(cause: Cause) -> u8 {
        cause.number()
    }
}

/// Why a call refuses, and where: a byte's place in a file from 0, the number of a module or channel, or the least length of a
/// list. A place that the cause does not name is 0.
#[derive(Clone, Copy, PartialEq, Eq, Debug)]
pub struct Refusal {
    pub cause: Cause,
    pub place: usize,
}

// A refusal that names no place.
impl From<Cause> for Refusal {
    ghost from_gives = { λ cause r. r ≡ record { cause = cause; place = 0 } };

    fn from(cause: Cause) -> Refusal {
        cause.at(0)
    }
}

impl fmt::Display for Refusal {
    ghost output = { λ x. Some (refusal_line x) };

    fn fmt<W: fmt::Write>(&self, f: &mut fmt::Formatter<W>) -> fmt::Result {
        let number = self.cause.number();
        let place = self.place;
        write!(f, "refused {number} at {place}")
    }
}
