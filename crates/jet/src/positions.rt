// The positions not above another, one from the one before it.
ghost use Rattle.std.specs.Prelude.{◌≡◌, suc, ◌-◌, ◌<◌, true, []};
ghost use Rattle.jet.specs.Positions.{positions, not_above, among};

// The first position after p that is not above m, p being one before m: of the marks e0, e1, e2, e3 in turn, the first
// whose degree is lower in p than in m goes up by one, and those before it go back to 0.
pub fn next(p: usize, m: usize) -> usize
    requires { (p < m) × (m < positions) × (not_above p m ≡ true) }
    ensures { (p < result) × (not_above result m ≡ true) × (among (result - suc p) (suc p) m ≡ []) }
{
    if p % 4 < m % 4 {
        return p + 1;
    }
    if p / 4 % 2 < m / 4 % 2 {
        return (p / 4 + 1) * 4;
    }
    if p / 8 % 2 < m / 8 % 2 {
        return (p / 8 + 1) * 8;
    }
    (p / 16 + 1) * 16
}
