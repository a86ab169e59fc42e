// What a question answers C.
ghost use Rattle.std.specs.Prelude.{◌≡◌};
ghost use Rattle.c_structs.specs.Reply.{reply_for};

use crate::refusal::Refusal;
use crate::state::State;
use held_files::state::Reply as Replied;
use monitor::question::Report;
use rounding::end::{Enclosure, End};
use rounding::unit::UNIT;

// What a question answers: the state, unchanged; why it was refused, if it was; the root's ends in units, each with its
// mark, and the number of basic events (E). Refused, it has the enclosure that says nothing: 0 to 1, unmarked.
// The C interface has no Result: number 0 in the refusal says Ok.
#[repr(C)]
#[derive(Clone, Copy)]
pub struct Reply {
    pub state: State,
    pub refusal: Refusal,
    pub lower: u32,
    pub upper: u32,
    pub lower_exact: bool,
    pub upper_exact: bool,
    pub events: usize,
}

// The report that says nothing: 0 to 1, unmarked.
const NOTHING_SAID: Report = Report {
    ends: Enclosure {
        lower: End {
            value: 0,
            exact: false,
        },
        upper: End {
            value: UNIT as u32,
            exact: false,
        },
    },
    events: 0,
};

// The reply of the monitor for C.
impl From<Replied<Report>> for Reply {
    ghost from_gives = { λ replied reply. reply ≡ reply_for replied };

    fn from(replied: Replied<Report>) -> Reply {
        let state = replied.state.into();
        let refusal = replied.outcome.into();
        let report = replied.outcome.unwrap_or(NOTHING_SAID);
        Reply {
            state,
            refusal,
            lower: report.ends.lower.value,
            upper: report.ends.upper.value,
            lower_exact: report.ends.lower.exact,
            upper_exact: report.ends.upper.exact,
            events: report.events,
        }
    }
}
