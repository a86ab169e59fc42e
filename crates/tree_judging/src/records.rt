// Judges the records of a tree file, rising, and then the sum of b: refusals 6 and 7.
ghost use Rattle.std.specs.Prelude.{◌≡◌, ◌<◌};
ghost use Rattle.tree_judging.specs.RecordRules.{record_fault};
ghost use Rattle.tree_judging.specs.Judged.{records_judged};
ghost use Rattle.tree_judging.specs.Requirements.{Tallied};

use crate::judgement::Counts;
use crate::sized::SizedFile;
use fields::fields::field16_at;
use refusals::refusal::Refusal;
use refusals::rule::Rule;
use tree_file::format::{A_OFFSET, B_OFFSET, MAX_INPUTS, NUMBER_PLACE, Record, record_at};
use tree_file::kind::RecordKind;

impl SizedFile<'_> {
    // The fault of record i, before which there are that many basic events and inputs of gates.
    #[tactic(auto, unfolding(crate::specs::RecordRules::record_fault, crate::specs::RecordRules::has_fields))]
    fn judge_record(self, i: usize, events: usize, inputs: usize) -> Result<(), Refusal>
        requires { (i < self.nodes) × Tallied self.file.now i events inputs }
        ensures { result ≡ record_fault self.entry.file.now i }
    {
        let record = Record {
            file: self.file,
            node: i,
        };
        let place = record_at(i);
        let byte = record.kind();
        let kind = RecordKind::try_from(byte).map_err(|rule| rule.at(place))?;
        let a = record.field(A_OFFSET);
        let b = record.field(B_OFFSET);
        let well_formed = match kind {
            RecordKind::Event => (a == events) & (b == 0),
            RecordKind::And | RecordKind::Or => {
                (1..=MAX_INPUTS).contains(&b) & (a == inputs) & (a + b <= self.nodes - 1)
            }
        };
        if !well_formed {
            return Err(Rule::WrongField.at(place));
        }
        Ok(())
    }

    // The first fault of the records and of the sum of b, or the counts.
    pub fn judge_records(self) -> Result<Counts, Refusal>
        ensures { result ≡ records_judged self.entry.file.now }
    {
        let mut events = 0;
        let mut inputs = 0;
        for i in 0..self.nodes {
            self.judge_record(i, events, inputs)?;
            let record = Record {
                file: self.file,
                node: i,
            };
            if record.kind() == RecordKind::Event as usize {
                events += 1;
            } else {
                inputs += record.field(B_OFFSET);
            }
        }
        if inputs < self.nodes - 1 {
            return Err(Rule::WrongField.at(record_at(self.nodes)));
        }
        let number = field16_at(self.file, NUMBER_PLACE);
        Ok(Counts {
            number,
            nodes: self.nodes,
            events,
        })
    }
}
