// The refusals of document 01 ("Refusals by place") and of document 02's requests: one type, which every crate above answers with.
#![tactic(auto)]

ghost use Rattle.std.specs.Prelude.{◌≡◌};
ghost use Rattle.refusal.specs.Refusal.{number_of};

use std::error::Error;
use std::fmt;

// Why a call took nothing.
#[derive(Clone, Copy, Debug, PartialEq, Eq, Hash)]
pub enum Refusal {
    SeedRange,
    SeedWord,
    Record,
    Sample,
    Disparity,
    ItemsMany,
    Item,
    BufferShort,
    StripShort,
    StripCount,
    SlotsFew,
    StripCut,
    StripPadding,
    Alignment,
    StripForm,
    StripRun,
}

impl Refusal {
    // The number by which the documents and C name it.
    pub fn number(self) -> u8
        ensures { result ≡ number_of self }
    {
        match self {
            Refusal::SeedRange => 1,
            Refusal::SeedWord => 2,
            Refusal::Record => 3,
            Refusal::Sample => 4,
            Refusal::Disparity => 5,
            Refusal::ItemsMany => 6,
            Refusal::Item => 7,
            Refusal::BufferShort => 8,
            Refusal::StripShort => 9,
            Refusal::StripCount => 10,
            Refusal::SlotsFew => 11,
            Refusal::StripCut => 12,
            Refusal::StripPadding => 13,
            Refusal::Alignment => 19,
            Refusal::StripForm => 20,
            Refusal::StripRun => 21,
        }
    }
}

impl From<Refusal> for u8 {
    ghost from_gives = { λ refusal number. number ≡ number_of refusal };

    fn from(refusal: Refusal) -> u8 {
        refusal.number()
    }
}

impl fmt::Display for Refusal {
    fn fmt<W: fmt::Write>(&self, f: &mut fmt::Formatter<W>) -> fmt::Result {
        write!(f, "refused {}", self.number())
    }
}

impl Error for Refusal {}
