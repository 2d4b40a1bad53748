// What a call can refuse, and for what.
ghost use Rattle.std.specs.Prelude.{◌≡◌, Some};
ghost use Rattle.fault.specs.Faults.{misreading_number, misreading_words, number_of, layer_of, place_of, source_of, word_of, words_of};
ghost use Rattle.fault.specs.declared.fault.Fault.TheVariants.{Memory};

use std::alloc::{AllocError, AllocFailed};
use std::error::Error;
use std::fmt;

/// Which text a fault of reading is in.
#[derive(Clone, Copy, PartialEq, Eq, Debug)]
pub enum Source {
    Formula,
    Term,
}

/// What is wrong with bytes that are read.
#[derive(Clone, Copy, PartialEq, Eq, Debug)]
pub enum Misreading {
    NotAllowed,
    EndsEarly,
    AfterEnd,
    TooDeep,
    TooMany,
}

/// The layer that a fault comes from.
#[derive(Clone, Copy, PartialEq, Eq, Debug)]
pub enum Layer {
    Reader,
    Run,
    Text,
    Memory,
}

/// Why a call was refused. A fault of reading has the text that it is in and the place of its byte.
#[derive(Clone, Copy, PartialEq, Eq, Debug)]
pub enum Fault {
    Reading(Misreading, Source, usize),
    SizeOutOfRange,
    WrongCount,
    ElementOutOfRange,
    NotATruthValue,
    BufferShort,
    Memory,
}

impl Misreading {
    // The number of a fault that says so.
    fn number(self) -> u8
        ensures { result ≡ misreading_number self }
    {
        match self {
            Misreading::NotAllowed => 5,
            Misreading::EndsEarly => 6,
            Misreading::AfterEnd => 7,
            Misreading::TooDeep => 8,
            Misreading::TooMany => 9,
        }
    }

    // What is said of it to people.
    fn words(self) -> &'static str
        ensures { result.now ≡ misreading_words self }
    {
        match self {
            Misreading::NotAllowed => "byte not allowed at this point",
            Misreading::EndsEarly => "bytes end too soon",
            Misreading::AfterEnd => "bytes after the end",
            Misreading::TooDeep => "part at level 25",
            Misreading::TooMany => "part 201",
        }
    }
}

impl Fault {
    /// The fault's number; none for want of memory.
    pub fn number(&self) -> Option<u8>
        ensures { result ≡ number_of self.now }
    {
        match self {
            Fault::Reading(what, _, _) => Some(what.number()),
            Fault::SizeOutOfRange => Some(19),
            Fault::WrongCount => Some(20),
            Fault::ElementOutOfRange => Some(21),
            Fault::NotATruthValue => Some(22),
            Fault::BufferShort => Some(26),
            Fault::Memory => None,
        }
    }

    /// The layer that the fault comes from.
    pub fn layer(&self) -> Layer
        ensures { result ≡ layer_of self.now }
    {
        match self {
            Fault::Reading(_, _, _) => Layer::Reader,
            Fault::SizeOutOfRange
            | Fault::WrongCount
            | Fault::ElementOutOfRange
            | Fault::NotATruthValue => Layer::Run,
            Fault::BufferShort => Layer::Text,
            Fault::Memory => Layer::Memory,
        }
    }

    /// The byte that a fault of reading is at, counted from 0; else 0.
    pub fn place(&self) -> usize
        ensures { result ≡ place_of self.now }
    {
        match self {
            Fault::Reading(_, _, place) => *place,
            _ => 0,
        }
    }

    /// The text that a fault of reading is in.
    pub fn source(&self) -> Option<Source>
        ensures { result ≡ source_of self.now }
    {
        match self {
            Fault::Reading(_, source, _) => Some(*source),
            _ => None,
        }
    }
}

impl fmt::Display for Source {
    ghost output = { λ s. Some (word_of s) };

    fn fmt<W: fmt::Write>(&self, f: &mut fmt::Formatter<W>) -> fmt::Result {
        f.pad(match self {
            Source::Formula => "formula",
            Source::Term => "term",
        })
    }
}

impl fmt::Display for Fault {
    ghost output = { λ e. Some (words_of e) };

    fn fmt<W: fmt::Write>(&self, f: &mut fmt::Formatter<W>) -> fmt::Result {
        f.pad(match self {
            Fault::Reading(what, _, _) => what.words(),
            Fault::SizeOutOfRange => "size out of range",
            Fault::WrongCount => "wrong number of bytes or words",
            Fault::ElementOutOfRange => "element not below the size",
            Fault::NotATruthValue => "truth byte not 0 or 1",
            Fault::BufferShort => "buffer too short",
            Fault::Memory => "out of memory",
        })
    }
}

// Two impls with one body: the library's two errors of memory have no trait of their own in common.
impl From<AllocError> for Fault {
    ghost from_gives = { λ _ r. r ≡ Memory };

    fn from(_e: AllocError) -> Fault {
        Fault::Memory
    }
}

impl<T: Drop> From<AllocFailed<T>> for Fault {
    ghost from_gives = { λ _ r. r ≡ Memory };

    fn from(_e: AllocFailed<T>) -> Fault {
        Fault::Memory
    }
}

impl Error for Fault {}
