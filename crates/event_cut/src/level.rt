// The levels at which a sheet is cut.
ghost use Rattle.std.specs.Prelude.{◌≡◌, ◌↔◌, IsSome, IfSome};
ghost use Rattle.event_cut.specs.Level.{IsLevel};

// The most levels that a cut is asked at.
pub const MAX_LEVELS: u32 = 1000;

// Level k of n: n is 1 to 1,000, k at most n.
#[derive(Clone, Copy)]
pub struct Level {
    pub k: u32,
    pub n: u32,
    pub ghost in_range: { IsLevel k n },
}

impl Level {
    // Level k of n, if there is one.
    pub fn new(k: u32, n: u32) -> Option<Level>
        ensures exactly { IsSome result ↔ IsLevel k n }
        ensures same { IfSome result (λ level. (level.k ≡ k) × (level.n ≡ n)) }
    {
        if (1..=MAX_LEVELS).contains(&n) & (k <= n) {
            return Some(Level { k, n });
        }
        None
    }
}
