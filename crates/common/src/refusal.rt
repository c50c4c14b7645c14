// The refusals of the calls, REFERENCE 1.5.
ghost use Rattle.std.specs.Prelude.{◌≡◌};
ghost use Rattle.common.specs.Refusals.{number_of};

use std::error::Error;
use std::fmt;

// Why a call is refused. Each variant is the number that C has for it.
#[derive(Clone, Copy, Debug, PartialEq, Eq)]
pub enum Refusal {
    BrokenDictionary = 1,
    RaggedLoad = 2,
    LoadTooLong = 3,
    IllSizedStore = 4,
    BlankId = 5,
    UnknownTerm = 6,
    DictionaryFull = 7,
    StoreFull = 8,
    FindingsFull = 9,
    UnknownKind = 10,
    TermTooLong = 11,
    NoSuchId = 12,
    BadLine = 13,
    LongLine = 14,
    PageFull = 15,
}

impl Refusal {
    pub fn number(self) -> u32
        ensures { result ≡ number_of self }
    {
        self as u32
    }
}

impl fmt::Display for Refusal {
    fn fmt<W: fmt::Write>(&self, f: &mut fmt::Formatter<W>) -> fmt::Result {
        f.write_str(match self {
            Refusal::BrokenDictionary => "broken dictionary",
            Refusal::RaggedLoad => "ragged load",
            Refusal::LoadTooLong => "load too long",
            Refusal::IllSizedStore => "ill-sized store",
            Refusal::BlankId => "blank id",
            Refusal::UnknownTerm => "unknown term",
            Refusal::DictionaryFull => "dictionary full",
            Refusal::StoreFull => "store full",
            Refusal::FindingsFull => "findings full",
            Refusal::UnknownKind => "unknown kind",
            Refusal::TermTooLong => "term too long",
            Refusal::NoSuchId => "no such id",
            Refusal::BadLine => "bad line",
            Refusal::LongLine => "long line",
            Refusal::PageFull => "page full",
        })
    }
}

impl Error for Refusal {}
