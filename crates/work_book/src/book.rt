// The book's format, as specs/Book.antt has it, and its rules: refusal 29.
ghost use Rattle.std.specs.Prelude.{◌≡◌, ◌<◌};
ghost use Rattle.refusals.specs.FirstFault.{first_among};
ghost use Rattle.work_book.specs.Book.{window_at, window_count, open_in};
ghost use Rattle.work_book.specs.BookRules.{book_fault, window_fault};

use fields::fields::{field16_at, field32_at};
use refusals::refusal::Refusal;
use refusals::rule::Rule;

// The length of a window, and the most bytes of a book: 256 windows.
const WINDOW_LENGTH: usize = 10;

const MOST_BOOK: usize = 2560;

// Where a window's fields stand after its 16-bit event: its first hour and its end hour.
const FIRST_OFFSET: usize = 2;

const END_OFFSET: usize = 6;

// The basic event that is out of service in a window, its first hour and its end hour.
#[derive(Clone, Copy)]
pub struct Window {
    pub event: usize,
    pub first: u32,
    pub end: u32,
}

impl Window {
    // Whether it is open at an hour: the first hour counts, the end hour does not.
    pub fn is_open(self, hour: u32) -> bool
        ensures { result ≡ open_in self hour }
    {
        (self.first..self.end).contains(&hour)
    }
}

// The number of windows of a book.
pub fn window_count(book: &[u8]) -> usize
    ensures { result ≡ window_count book.now }
{
    book.len() / WINDOW_LENGTH
}

// Window i of a book.
pub fn window_at(book: &[u8], i: usize) -> Window
    requires { i < window_count book.now }
    ensures { result ≡ window_at book.now i }
{
    let place = WINDOW_LENGTH * i;
    let event = field16_at(book, place);
    let first = field32_at(book, place + FIRST_OFFSET);
    let end = field32_at(book, place + END_OFFSET);
    Window { event, first, end }
}

// The fault of window i of a book for so many basic events: its event, then its end. Both are asked for together by
// the three rules here alone: a struct of them would be made once and taken apart at once.
fn judge_window(book: &[u8], i: usize, events: usize) -> Result<(), Refusal>
    requires { i < window_count book.now }
    ensures { result ≡ window_fault events book.now i }
{
    let place = WINDOW_LENGTH * i;
    let window = window_at(book, i);
    if events <= window.event {
        return Err(Rule::WrongBook.at(place));
    }
    if window.end <= window.first {
        return Err(Rule::WrongBook.at(place + END_OFFSET));
    }
    Ok(())
}

// The first fault among the windows, rising.
#[tactic(auto, using(refusals::proofs::Rows::row))]
fn judge_windows(book: &[u8], events: usize) -> Result<(), Refusal>
    ensures { result ≡ first_among (window_fault events book.now) (window_count book.now) }
{
    for i in 0..window_count(book) {
        judge_window(book, i, events)?;
    }
    Ok(())
}

// The first fault of a book for so many basic events: its length, then its windows.
#[tactic(auto, using(refusals::proofs::FirstFault::or_else_absent), unfolding(crate::specs::BookRules::book_fault))]
pub fn judge_book(book: &[u8], events: usize) -> Result<(), Refusal>
    ensures { result ≡ book_fault events book.now }
{
    let length = book.len();
    if (length <= MOST_BOOK) & (length % WINDOW_LENGTH == 0) {
        return judge_windows(book, events);
    }
    Err(Rule::WrongBook.at(length))
}
