// The state as C holds it between calls. It is not the monitor's own: its layout is C's.
ghost use Rattle.std.specs.Prelude.{◌≡◌};
ghost use Rattle.c_structs.specs.State.{held_of, state_of};

use held_files::state::State as Held;

// The lengths of the tree file and of the opinion sheet that are held, 0 where none is.
#[repr(C)]
#[derive(Clone, Copy)]
pub struct State {
    pub tree_len: usize,
    pub sheet_len: usize,
}

// The monitor's state of these lengths.
impl From<State> for Held {
    ghost from_gives = { λ state held. held ≡ held_of state };

    fn from(state: State) -> Held {
        Held {
            tree_len: state.tree_len,
            sheet_len: state.sheet_len,
        }
    }
}

// The lengths that a state of the monitor has.
impl From<Held> for State {
    ghost from_gives = { λ held state. state ≡ state_of held };

    fn from(held: Held) -> State {
        State {
            tree_len: held.tree_len,
            sheet_len: held.sheet_len,
        }
    }
}
