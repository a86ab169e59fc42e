// A book of work windows at an hour.

// The book's bytes, whatever they hold, and the hour that is asked for.
#[derive(Clone, Copy)]
pub struct BookAtHour<'a> {
    pub book: &'a [u8],
    pub hour: u32,
}
