// Judges the links of a tree file, rising: refusals 8 and 9.
ghost use Rattle.std.specs.Prelude.{◌≡◌, Ok};
ghost use Rattle.tree_judging.specs.RecordRules.{records_fault};
ghost use Rattle.tree_judging.specs.LinkRules.{links_fault};

use crate::sized::SizedFile;
use fields::fields::field16_at;
use refusals::refusal::Refusal;
use refusals::rule::Rule;
use tree_file::format::{MAX_NODES, Record, link_at};

impl SizedFile<'_> {
    // The first fault of the links, in a file whose records have none.
    pub fn judge_links(self) -> Result<(), Refusal>
        requires { records_fault self.file.now ≡ Ok tt }
        ensures { result ≡ links_fault self.entry.file.now }
    {
        // The nodes that a link has named.
        let mut named = [false; MAX_NODES];
        // The first link of the gate.
        let mut first = 0;
        let mut gate = 0;
        // Document 01 asks for labelled loops that yield the first refusal by `break`: a `for` yields no value.
        'gates: loop {
            if self.nodes <= gate {
                break 'gates Ok(());
            }
            let record = Record {
                file: self.file,
                node: gate,
            };
            let inputs = record.input_count();
            'links: for k in 0..inputs {
                let place = link_at(self.file, first + k);
                let node = field16_at(self.file, place);
                if gate <= node {
                    break 'gates Err(Rule::WrongLink.at(place));
                }
                if named[node] {
                    break 'gates Err(Rule::LinkedBefore.at(place));
                }
                named[node] = true;
            }
            first += inputs;
            gate += 1;
        }
    }
}
