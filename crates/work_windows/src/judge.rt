// Judges what is lent for a question at an hour: refusals 29, 30 and 25.
ghost use Rattle.std.specs.Prelude.{◌≡◌};
ghost use Rattle.refusals.specs.FirstFault.{first_of};
ghost use Rattle.work_slices.specs.Slices.{contents};
ghost use Rattle.work_windows.specs.Question.{lent_rules};

use held_pair::judge::judge_slices;
use refusals::refusal::Refusal;
use refusals::rule::Rule;
use tree_judging::judgement::Counts;
use work_book::book::judge_book;
use work_slices::slices::WorkSlices;

// The first fault of the book, of a buffer of so many bytes for the held sheet, and of the work slices.
pub fn judge_lent(
    counts: Counts,
    sheet_len: usize,
    book: &[u8],
    room: usize,
    slices: &WorkSlices,
) -> Result<(), Refusal>
    ensures { result ≡ first_of (lent_rules counts.events counts.nodes sheet_len book.now room
        (contents slices.now)) }
{
    judge_book(book, counts.events)?;
    if room < sheet_len {
        return Err(Rule::ShortBuffer.at(0));
    }
    judge_slices(counts.nodes, slices.stored())
}
