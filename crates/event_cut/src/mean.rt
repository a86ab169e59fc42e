// The mean of opinions, weighted by score over all listed experts: who is silent has an opinion too.
ghost use Rattle.std.specs.Prelude.{◌≡◌, ◌≤◌};
ghost use Rattle.theory.specs.Opinion.{mean};
ghost use Rattle.opinion_sheet.specs.Format.{expert_count, max_term};
ghost use Rattle.event_cut.specs.Opinion.{opinions_among};
ghost use Rattle.event_cut.specs.Mean.{row_numbers, said_numbers, with_opinion, mean_by};
ghost use Rattle.event_cut.specs.EventCut.{fractions_trapezoid};
ghost use Rattle.event_cut.specs.Requirements.{SumsRoom, OpinionsInside};

use crate::terms::TERMS;
use fields::fields::byte_at;
use opinion_sheet::format::{SCORES_PLACE, expert_count};
use opinion_sheet::fractions::Fractions;
use opinion_sheet::numbers::Numbers;

// Silence in hundredths: all from 0 to 1 stays fully possible.
pub const SILENCE: Numbers<u32> = Numbers {
    a: 0,
    b: 0,
    c: 100,
    d: 100,
};

// The sum of the scores, and of score × value for the opinions' four numbers, in hundredths. No fractions yet: 100 ×
// the scores is reckoned once, and not once an opinion.
#[derive(Clone, Copy, Default)]
pub struct Sums {
    pub scores: u32,
    pub weighted: Numbers<u32>,
}

// The four numbers of a term, by its row.
pub fn row_numbers(row: [u32; 3]) -> Numbers<u32>
    ensures { result ≡ row_numbers row }
{
    Numbers {
        a: row[0],
        b: row[1],
        c: row[1],
        d: row[2],
    }
}

// The sums with one opinion more, by its four numbers.
pub fn with_opinion(sums: Sums, numbers: Numbers<u32>, score: u32) -> Sums
    requires { SumsRoom sums numbers score }
    ensures { result ≡ with_opinion sums numbers score }
{
    let weighted = Numbers {
        a: sums.weighted.a + score * numbers.a,
        b: sums.weighted.b + score * numbers.b,
        c: sums.weighted.c + score * numbers.c,
        d: sums.weighted.d + score * numbers.d,
    };
    Sums {
        scores: sums.scores + score,
        weighted,
    }
}

// The sums with what is said by a term code, silence or a row of the table. Each has a call of its own, so that the b
// and c of a row are weighted once.
fn with_said(sums: Sums, rows: &[[u32; 3]; 7], term: usize, score: u32) -> Sums
    requires { (term ≤ max_term) × SumsRoom sums (said_numbers rows.now term) score }
    ensures { result ≡ with_opinion sums (said_numbers rows.now term) score }
{
    if term == 0 {
        return with_opinion(sums, SILENCE, score);
    }
    with_opinion(sums, row_numbers(rows[term - 1]), score)
}

// The mean by its sums, of at least one opinion: four fractions, and nothing is rounded.
pub fn mean_by(sums: Sums) -> Fractions
    requires { 1 ≤ sums.scores }
    ensures { result ≡ mean_by sums }
{
    Fractions {
        den: 100 * sums.scores as u64,
        numerators: sums.weighted.into(),
    }
}

// The mean of the opinions whose terms begin at a place. The table stands on the stack once, not once an opinion.
#[tactic(auto, using(crate::proofs::MeanOfOpinions::summed_none))]
pub fn mean_of(file: &[u8], terms: usize) -> Fractions
    requires { OpinionsInside file.now terms }
    ensures { fractions_trapezoid result
        ≡ mean (opinions_among file.now terms (expert_count file.now)) }
{
    let rows = TERMS;
    let experts = expert_count(file);
    let mut sums = Sums::default();
    for expert in 0..experts {
        let term = byte_at(file, terms + expert);
        let score = byte_at(file, SCORES_PLACE + expert) as u32;
        sums = with_said(sums, &rows, term, score);
    }
    mean_by(sums)
}
