// The ends of an interval as a gate's fold goes by them.
ghost use Rattle.std.specs.Prelude.{◌≡◌};
ghost use Rattle.theory.specs.Unit.{billion};
ghost use Rattle.theory.specs.GateFold.{both_seen};
ghost use Rattle.tree_file.specs.NodeTable.{kind_as};
ghost use Rattle.rounding.specs.Ends.{enclosure, end_in, BothInUnits};

use rounding::end::{Enclosure, End};
use rounding::step::complement;
use tree_file::node::GateKind;

// The ends of an input or an answer as the fold goes by them: an OR goes by what is missing to 1, which turns the two
// about. Each number is chosen by itself, since that takes no jump.
pub fn seen_ends(kind: GateKind, x: Enclosure) -> Enclosure
    requires { BothInUnits billion x }
    ensures value { result ≡ enclosure (both_seen (kind_as kind) billion (λ w. end_in w x)) }
    ensures both_in_units { BothInUnits billion result }
{
    let low = complement(x.upper);
    let high = complement(x.lower);
    Enclosure {
        lower: End {
            value: kind.by_kind(x.lower.value, low.value),
            exact: kind.by_kind(x.lower.exact, low.exact),
        },
        upper: End {
            value: kind.by_kind(x.upper.value, high.value),
            exact: kind.by_kind(x.upper.exact, high.exact),
        },
    }
}
