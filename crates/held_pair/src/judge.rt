// Judges a level and the held files, afresh, before a call goes on: refusals 13, 21 to 24, and 25 of the slices.
ghost use Rattle.std.specs.Prelude.{◌≡◌};
ghost use Rattle.refusals.specs.FirstFault.{judged_by};
ghost use Rattle.work_slices.specs.Slices.{read};
ghost use Rattle.held_pair.specs.Standing.{changed, fitting, held, short_slice};
ghost use Rattle.held_pair.specs.Standing.{tree_standing, pair_standing, standing_of};

use crate::lent::{HeldPair, HeldTree};
use event_cut::level::Level;
use held_files::held::{HeldFile, Sheet, Tree};
use refusals::refusal::Refusal;
use refusals::rule::Rule;
use sheet_judging::judgement::Counts as SheetCounts;
use tree_judging::judgement::Counts;
use work_slices::slices::StoredEnds;

// The held file of that length, judged as its bytes stand: whatever is wrong with it, it has changed.
fn judge_held<F: HeldFile>(len: usize, store: &[u8]) -> Result<F::Counts, Refusal>
    ensures { result ≡ judged_by (changed F.PLACE F.fault len store.now) (F.counts (held len store.now)) }
{
    if store.len() < len {
        return Err(Rule::Changed.at(F::PLACE));
    }
    // A match: tried with `map_err`, whose return was not proved.
    match F::judge(&store[..len]) {
        Ok(counts) => Ok(counts),
        Err(_) => Err(Rule::Changed.at(F::PLACE)),
    }
}

// Whether the sheet is for the tree and has an entry for each of its basic events.
fn fits(tree: Counts, sheet: SheetCounts) -> bool
    ensures { result ≡ fitting tree sheet }
{
    (tree.number == sheet.number) & (sheet.events == tree.events)
}

impl HeldTree<'_> {
    // Whether a call can go on with the held tree alone, and its counts: refusals 21 and 23.
    pub fn judge(self) -> Result<Counts, Refusal>
        ensures { result ≡ tree_standing self.entry.state self.entry.tree_store.now }
    {
        if self.state.tree_len == 0 {
            return Err(Rule::NoTree.at(0));
        }
        judge_held::<Tree>(self.state.tree_len, self.tree_store)
    }
}

impl HeldPair<'_> {
    // Whether a call can go on with the held pair, and the tree's counts: refusals 21 to 24.
    pub fn judge(self) -> Result<Counts, Refusal>
        ensures { result ≡ pair_standing self.entry.state self.entry.tree_store.now self.entry.sheet_store.now }
    {
        if self.state.tree_len == 0 {
            return Err(Rule::NoTree.at(0));
        }
        if self.state.sheet_len == 0 {
            return Err(Rule::NoSheet.at(0));
        }
        let tree = judge_held::<Tree>(self.state.tree_len, self.tree_store)?;
        let sheet = judge_held::<Sheet>(self.state.sheet_len, self.sheet_store)?;
        if !fits(tree, sheet) {
            return Err(Rule::OtherTree.at(0));
        }
        Ok(tree)
    }

    // Whether level k of n can be put to the held pair: 13, then the pair's own refusals. Any two numbers are answered,
    // so that k and n are no `Level` yet.
    pub fn judge_level(self, k: u32, n: u32) -> Result<Counts, Refusal>
        ensures { result
            ≡ standing_of self.entry.state self.entry.tree_store.now self.entry.sheet_store.now k n }
    {
        if Level::new(k, n).is_none() {
            return Err(Rule::WrongLevel.at(0));
        }
        self.judge()
    }
}

// Whether each work slice has a place for each of so many nodes: refusal 25.
pub fn judge_slices(nodes: usize, slices: StoredEnds) -> Result<(), Refusal>
    ensures { result ≡ short_slice nodes (read slices.entry) }
{
    let lower = slices.lower.len();
    let upper = slices.upper.len();
    let marks = slices.marks.len();
    if (nodes <= lower) & (nodes <= upper) & (nodes <= marks) {
        return Ok(());
    }
    Err(Rule::ShortSlice.at(0))
}
