//! Why an input is refused, and at which place in it.
#![tactic(auto)]

mod fault;
mod putting;

ghost use Rattle.std.specs.Prelude.{◌≡◌};
ghost use Rattle.refusals.specs.Texts.{place_word, place_number, why_text};

pub use fault::Fault;
use out_of_memory::NoMemory;
use std::alloc::{AllocError, AllocFailed};
use thiserror::Error;

/// A place in an input. Its number counts from 1: of a line in a text, or of an item in an array of a document.
#[derive(Clone, Copy, Debug, PartialEq, Eq)]
pub enum Place {
    Line(u32),
    Document,
    Component(usize),
    Stream(usize),
    Unit(usize),
}

/// Why an input is refused.
#[derive(Clone, Copy, Debug, PartialEq, Eq)]
pub enum Why {
    /// A byte that may not stand there.
    BadByte,
    /// A line of no known kind.
    BadWord,
    /// A line or an item that lacks a part, or has one too many.
    BadShape,
    /// What should be a name is none.
    BadName,
    /// What should be a number is none.
    BadNumber,
    /// A number whose denominator is 0 modulo the prime of the field, or whose numerator is though it is not 0 itself.
    Vanish,
    /// What may stand once stands twice.
    Twice,
    /// More than the program takes.
    TooMany,
    /// A device of no known kind.
    Unsupported,
    /// A netlist of which no device names the ground.
    NoGround,
    /// The source of a device is no voltage source of the netlist.
    NoSuchSource,
    /// An input that is no TOML document.
    NotToml,
    /// A document of a version that the program does not know.
    BadVersion,
    /// A key that may not stand there.
    UnknownKey,
    /// A key that is due and is not there.
    Missing,
    /// A value of another type than is due, or a list with too few or too many items.
    BadValue,
    /// A unit of no known kind.
    BadKind,
    /// A name that is declared nowhere.
    Undeclared,
}

/// A refusal: the first place at which an input breaks a rule, and the rule.
#[derive(Clone, Copy, Debug, PartialEq, Eq)]
pub struct Refused {
    pub place: Place,
    pub why: Why,
}

/// Why a model was not read.
#[derive(Clone, Copy, Debug, PartialEq, Eq, Error)]
pub enum ReadModel {
    #[error("the input breaks a rule of its format")]
    Refused(Refused),
    #[error("out of memory")]
    NoMemory,
}

impl Place {
    /// The word for this place.
    pub fn word(self) -> &'static str
        ensures { result.now ≡ place_word self }
    {
        match self {
            Place::Line(_) => "line",
            Place::Document => "document",
            Place::Component(_) => "component",
            Place::Stream(_) => "stream",
            Place::Unit(_) => "unit",
        }
    }

    /// The number of this place, where it has one.
    pub fn number(self) -> Option<u64>
        ensures { result ≡ place_number self }
    {
        match self {
            Place::Document => None,
            Place::Line(number) => Some(u64::from(number)),
            Place::Component(number) | Place::Stream(number) | Place::Unit(number) => {
                Some(number as u64)
            }
        }
    }
}

impl Why {
    /// The words for this reason.
    pub fn text(self) -> &'static str
        ensures { result.now ≡ why_text self }
    {
        match self {
            Why::BadByte => "bad byte",
            Why::BadWord => "bad word",
            Why::BadShape => "bad shape",
            Why::BadName => "bad name",
            Why::BadNumber => "bad number",
            Why::Vanish => "vanishes in the field",
            Why::Twice => "twice",
            Why::TooMany => "too many",
            Why::Unsupported => "unsupported",
            Why::NoGround => "no ground",
            Why::NoSuchSource => "no such source",
            Why::NotToml => "not TOML",
            Why::BadVersion => "bad version",
            Why::UnknownKey => "unknown key",
            Why::Missing => "missing key",
            Why::BadValue => "bad value",
            Why::BadKind => "bad kind",
            Why::Undeclared => "undeclared",
        }
    }
}

impl From<Refused> for ReadModel {
    ghost use Rattle.std.specs.Prelude.{◌≡◌};
    ghost use Rattle.refusals.specs.declared.ReadModel.TheVariants.{Refused};

    ghost from_gives = { λ refused error. error ≡ Refused refused };

    fn from(refused: Refused) -> ReadModel {
        ReadModel::Refused(refused)
    }
}

impl From<NoMemory> for ReadModel {
    ghost use Rattle.std.specs.Prelude.{◌≡◌};
    ghost use Rattle.refusals.specs.declared.ReadModel.TheVariants.{NoMemory};

    ghost from_gives = { λ _ error. error ≡ NoMemory };

    fn from(_error: NoMemory) -> ReadModel {
        ReadModel::NoMemory
    }
}

impl From<AllocError> for ReadModel {
    ghost use Rattle.std.specs.Prelude.{◌≡◌};
    ghost use Rattle.refusals.specs.declared.ReadModel.TheVariants.{NoMemory};

    ghost from_gives = { λ _ error. error ≡ NoMemory };

    fn from(_error: AllocError) -> ReadModel {
        ReadModel::NoMemory
    }
}

impl<T: Drop> From<AllocFailed<T>> for ReadModel {
    ghost use Rattle.std.specs.Prelude.{◌≡◌};
    ghost use Rattle.refusals.specs.declared.ReadModel.TheVariants.{NoMemory};

    ghost from_gives = { λ _ error. error ≡ NoMemory };

    fn from(_error: AllocFailed<T>) -> ReadModel {
        ReadModel::NoMemory
    }
}
