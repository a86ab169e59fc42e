// What counting and listing the minimal cut sets answer C.
ghost use Rattle.std.specs.Prelude.{◌≡◌};
ghost use Rattle.c_structs.specs.SetCount.{count_for, listing_for};

use crate::refusal::Refusal;
use crate::state::State;
use held_files::state::Reply;
use refusals::refusal::Refusal as Reason;

// What counting answers: why it was refused, if it was, and the number of minimal cut sets, 0 where refused.
// The C interface has no Result: number 0 in the refusal says Ok.
#[repr(C)]
#[derive(Clone, Copy)]
pub struct SetCount {
    pub refusal: Refusal,
    pub count: u64,
}

// What listing answers: the state, unchanged; why it was refused, if it was; and the number of sets, 0 where refused.
// The C interface has no Result: number 0 in the refusal says Ok.
#[repr(C)]
#[derive(Clone, Copy)]
pub struct Listing {
    pub state: State,
    pub refusal: Refusal,
    pub count: u64,
}

// The answer for C of a count.
impl From<Result<u64, Reason>> for SetCount {
    ghost from_gives = { λ outcome answer. answer ≡ count_for outcome };

    fn from(outcome: Result<u64, Reason>) -> SetCount {
        SetCount {
            refusal: outcome.into(),
            count: outcome.unwrap_or(0),
        }
    }
}

// The answer for C of a listing.
impl From<Reply<u64>> for Listing {
    ghost from_gives = { λ reply listing. listing ≡ listing_for reply };

    fn from(reply: Reply<u64>) -> Listing {
        let SetCount { refusal, count } = reply.outcome.into();
        Listing {
            state: reply.state.into(),
            refusal,
            count,
        }
    }
}
