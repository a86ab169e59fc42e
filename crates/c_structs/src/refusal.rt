// A refusal as C gets it.
ghost use Rattle.std.specs.Prelude.{◌≡◌};
ghost use Rattle.c_structs.specs.Refusal.{refused_by, refusal_in};

use refusals::refusal::Refusal as Reason;

// Document 01's number and place, both 0 where the call was not refused: no rule has number 0.
// The C interface has no Result: number 0 says Ok, here and in each struct that holds a refusal.
#[repr(C)]
#[derive(Clone, Copy)]
pub struct Refusal {
    pub number: usize,
    pub place: usize,
}

// The number and the place of a refusal.
impl From<Reason> for Refusal {
    ghost from_gives = { λ reason refusal. refusal ≡ refused_by reason };

    fn from(reason: Reason) -> Refusal {
        Refusal {
            number: reason.rule.number(),
            place: reason.place,
        }
    }
}

// The refusal of a call by what it comes to: 0 and 0 where that is an Ok.
impl<T: Copy> From<Result<T, Reason>> for Refusal {
    ghost from_gives = { λ outcome refusal. refusal ≡ refusal_in outcome };

    fn from(outcome: Result<T, Reason>) -> Refusal {
        match outcome {
            Ok(_) => Refusal {
                number: 0,
                place: 0,
            },
            Err(reason) => reason.into(),
        }
    }
}
