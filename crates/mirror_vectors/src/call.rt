// Reading a call: six numbers of 32 bits, low byte first; the bytes of both stores follow.
use fields::fields::field32_at;
use held_files::state::State;
use program_input::read::read_head;

// The lengths of the stores, the state, and the lengths of the buffers.
#[derive(Clone, Copy)]
pub struct Call {
    pub tree_store: usize,
    pub sheet_store: usize,
    pub state: State,
    pub tree_buffer: usize,
    pub sheet_buffer: usize,
}

// The next call on standard input, without the stores' bytes that follow it; none at the end of the list.
pub fn read_call(rt: &impl Input) -> Option<Call> {
    let head: [u8; 24] = read_head(rt).ok()?;
    Some(Call {
        tree_store: field32_at(&head, 0) as usize,
        sheet_store: field32_at(&head, 4) as usize,
        state: State {
            tree_len: field32_at(&head, 8) as usize,
            sheet_len: field32_at(&head, 12) as usize,
        },
        tree_buffer: field32_at(&head, 16) as usize,
        sheet_buffer: field32_at(&head, 20) as usize,
    })
}
