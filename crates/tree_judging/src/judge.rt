// Judges a tree file.
ghost use Rattle.std.specs.Prelude.{◌≡◌};
ghost use Rattle.tree_judging.specs.Judged.{judged};

use crate::header::judge_header;
use crate::judgement::Counts;
use crate::sized::SizedFile;
use refusals::refusal::Refusal;
use tree_file::format::node_count;

// The first fault of a file in document 01's order, or its counts.
pub fn judge(file: &[u8]) -> Result<Counts, Refusal>
    ensures { result ≡ judged file.now }
{
    judge_header(file)?;
    let sized = SizedFile {
        file,
        nodes: node_count(file),
    };
    let counts = sized.judge_records()?;
    sized.judge_links()?;
    Ok(counts)
}
