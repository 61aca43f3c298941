// The detours as the numbers that a stored place of a search has for them, and back.
ghost use Rattle.std.specs.Prelude.{◌≡◌};
ghost use Rattle.solver_density.specs.Ways.{nearest_number, nearest_by, both_number, both_by};

use crate::types::{Both, Nearest};

impl From<Nearest> for u64 {
    ghost from_gives = { λ way number. number ≡ nearest_number way };

    #[tactic(auto, unfolding(crate::specs::Ways::nearest_number))]
    fn from(way: Nearest) -> u64 {
        match way {
            Nearest::HighDensity => 0,
            Nearest::AboveConvex => 1,
            Nearest::BelowConcave => 2,
        }
    }
}

impl From<u64> for Nearest {
    ghost from_gives = { λ number way. way ≡ nearest_by number };

    #[tactic(auto, unfolding(crate::specs::Ways::nearest_by))]
    fn from(number: u64) -> Nearest {
        match number {
            0 => Nearest::HighDensity,
            1 => Nearest::AboveConvex,
            _ => Nearest::BelowConcave,
        }
    }
}

impl From<Both> for u64 {
    ghost from_gives = { λ way number. number ≡ both_number way };

    #[tactic(auto, unfolding(crate::specs::Ways::both_number))]
    fn from(way: Both) -> u64 {
        match way {
            Both::BelowConvex => 0,
            Both::AboveConcave => 1,
        }
    }
}

impl From<u64> for Both {
    ghost from_gives = { λ number way. way ≡ both_by number };

    #[tactic(auto, unfolding(crate::specs::Ways::both_by))]
    fn from(number: u64) -> Both {
        match number {
            0 => Both::BelowConvex,
            _ => Both::AboveConcave,
        }
    }
}
