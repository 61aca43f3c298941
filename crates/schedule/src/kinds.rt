// The kinds of request and their turns: document 01's "Kinds and spans", with kinds 7 to 9 of document 02.
// Boards store a kind as its number, and callers give it so: `spans` has the tests of numbers.
ghost use Rattle.std.specs.Prelude.{◌≡◌};
ghost use Rattle.schedule.specs.Spans.{count_fits as count_fits_of, span_of};
ghost use Rattle.schedule.specs.Kinds.{number_of, Decodes};

use crate::spans::count_fits;

// What a request asks for, by its number.
#[derive(Clone, Copy, Debug, PartialEq, Eq)]
pub enum Kind {
    Density = 1,
    StableDensity = 2,
    PressureSpinodal = 3,
    SpinodalBranch = 4,
    CriticalPoint = 5,
    StabilitySpinodals = 6,
    BlendCriticalPoint = 7,
    CriticalPointAtTemperature = 8,
    CriticalPointAtPressure = 9,
}

// A number that no kind has.
#[derive(Clone, Copy, Debug, PartialEq, Eq)]
pub struct UnknownKind(pub u64);

impl TryFrom<u64> for Kind {
    type Error = UnknownKind;

    ghost try_from_gives = { Decodes };

    fn try_from(number: u64) -> Result<Self, UnknownKind> {
        match number {
            1 => Ok(Kind::Density),
            2 => Ok(Kind::StableDensity),
            3 => Ok(Kind::PressureSpinodal),
            4 => Ok(Kind::SpinodalBranch),
            5 => Ok(Kind::CriticalPoint),
            6 => Ok(Kind::StabilitySpinodals),
            7 => Ok(Kind::BlendCriticalPoint),
            8 => Ok(Kind::CriticalPointAtTemperature),
            9 => Ok(Kind::CriticalPointAtPressure),
            _ => Err(UnknownKind(number)),
        }
    }
}

impl From<Kind> for u64 {
    ghost from_gives = { λ kind number. number ≡ number_of kind };

    fn from(kind: Kind) -> u64 {
        kind as u64
    }
}

impl Kind {
    // The turns that a job of this kind has.
    #[tactic(auto, unfolding(crate::specs::Spans::span_of))]
    pub fn span(self) -> u64
        ensures { result ≡ span_of (number_of self) }
    {
        match self {
            Kind::Density => 3101,
            Kind::StableDensity => 6204,
            Kind::PressureSpinodal | Kind::SpinodalBranch => 30,
            Kind::StabilitySpinodals => 250,
            Kind::CriticalPoint | Kind::BlendCriticalPoint => 150,
            Kind::CriticalPointAtTemperature | Kind::CriticalPointAtPressure => 200,
        }
    }

    // Whether a request of this kind may have n components.
    pub fn counts_fit(self, n: u64) -> bool
        ensures { result ≡ count_fits_of (number_of self) n }
    {
        count_fits(u64::from(self), n)
    }
}
