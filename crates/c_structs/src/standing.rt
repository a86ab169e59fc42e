// What judging a level and both held files answers C.
ghost use Rattle.std.specs.Prelude.{◌≡◌};
ghost use Rattle.c_structs.specs.Standing.{standing_for};

use crate::refusal::Refusal;
use refusals::refusal::Refusal as Reason;
use tree_judging::judgement::Counts;

// Why the question would be refused, if it would; else the held tree's nodes (N) and basic events (E).
// The C interface has no Result: number 0 in the refusal says Ok.
#[repr(C)]
#[derive(Clone, Copy)]
pub struct Standing {
    pub refusal: Refusal,
    pub nodes: usize,
    pub events: usize,
}

// The standing that the monitor found.
impl From<Result<Counts, Reason>> for Standing {
    ghost from_gives = { λ judged standing. standing ≡ standing_for judged };

    fn from(judged: Result<Counts, Reason>) -> Standing {
        let (nodes, events) = judged.map_or((0, 0), |counts| (counts.nodes, counts.events));
        Standing {
            refusal: judged.into(),
            nodes,
            events,
        }
    }
}
