// Reading a call: a byte that says which, and five numbers of 32 bits, low byte first.
use fields::fields::field32_at;
use held_files::state::State;
use program_input::read::read_head;

// A call on the monitor, or a setting of what it works on.
#[derive(Clone, Copy)]
pub enum Call {
    // The lengths of the tree store and of the sheet store.
    Stores(usize, usize),
    // A place of a store and the byte put there.
    PokeTree(usize, u8),
    PokeSheet(usize, u8),
    Held(State),
    // The length of the file that follows.
    Tree(usize),
    Sheet(usize),
    Drop,
    // k and n, which may be no level.
    Judge(u32, u32),
    Question(Question),
    Count,
    // The places of the lent slice.
    CutSets(usize),
    // The length of the book that follows.
    Book(usize),
    // The hour, and the length of the buffer for its sheet.
    Hour(u32, usize),
    HourQuestion(Question),
}

// Level k of n, and the lengths of the three work slices. No `Level`: the list has calls whose k and n are none.
#[derive(Clone, Copy)]
pub struct Question {
    pub k: u32,
    pub n: u32,
    pub lower: usize,
    pub upper: usize,
    pub marks: usize,
}

// The next call on standard input, without the file that may follow it; none at the end of the list, or where what
// follows is no call.
pub fn read_call(rt: &impl Input) -> Option<Call> {
    let head: [u8; 21] = read_head(rt).ok()?;
    let k = field32_at(&head, 1);
    let n = field32_at(&head, 5);
    let first = k as usize;
    let second = n as usize;
    let question = Question {
        k,
        n,
        lower: field32_at(&head, 9) as usize,
        upper: field32_at(&head, 13) as usize,
        marks: field32_at(&head, 17) as usize,
    };
    match head[0] {
        1 => Some(Call::Stores(first, second)),
        2 => Some(Call::PokeTree(first, head[5])),
        3 => Some(Call::PokeSheet(first, head[5])),
        4 => Some(Call::Held(State {
            tree_len: first,
            sheet_len: second,
        })),
        5 => Some(Call::Tree(first)),
        6 => Some(Call::Sheet(first)),
        7 => Some(Call::Drop),
        8 => Some(Call::Judge(k, n)),
        9 => Some(Call::Question(question)),
        10 => Some(Call::Count),
        11 => Some(Call::CutSets(first)),
        12 => Some(Call::Book(first)),
        13 => Some(Call::Hour(k, second)),
        14 => Some(Call::HourQuestion(question)),
        _ => None,
    }
}
