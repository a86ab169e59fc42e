// Judges the held tree, afresh, before its minimal cut sets are counted or listed.
ghost use Rattle.std.specs.Prelude.{◌≡◌};
ghost use Rattle.cut_sets.specs.Judged.{count_standing};

use held_pair::lent::HeldTree;
use refusals::refusal::Refusal;
use refusals::rule::Rule;
use tree_judging::judgement::Counts;

// The most basic events: a set's number has a bit for each.
const MOST_EVENTS: usize = 64;

// Whether the sets of the held tree can be counted, and its counts: refusals 21, 23 and 26.
pub fn judge_events(held: HeldTree) -> Result<Counts, Refusal>
    ensures { result ≡ count_standing held.entry.state held.entry.tree_store.now }
{
    let counts = held.judge()?;
    if MOST_EVENTS < counts.events {
        return Err(Rule::ManyEvents.at(0));
    }
    Ok(counts)
}
