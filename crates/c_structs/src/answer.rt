// What a hand-in or a mirroring answers C.
ghost use Rattle.std.specs.Prelude.{◌≡◌};
ghost use Rattle.c_structs.specs.Answer.{answer_for};

use crate::refusal::Refusal;
use crate::state::State;
use held_files::state::Reply;

// What a hand-in or a mirroring answers: the state after it, and why it was refused, if it was.
// The C interface has no Result: number 0 in the refusal says Ok.
#[repr(C)]
#[derive(Clone, Copy)]
pub struct Answer {
    pub state: State,
    pub refusal: Refusal,
}

// The answer for C of a hand-in or a mirroring.
impl From<Reply<()>> for Answer {
    ghost from_gives = { λ reply answer. answer ≡ answer_for reply };

    fn from(reply: Reply<()>) -> Answer {
        Answer {
            state: reply.state.into(),
            refusal: reply.outcome.into(),
        }
    }
}
