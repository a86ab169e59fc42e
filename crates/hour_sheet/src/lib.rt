// The sheet of an hour: the held one, with each basic event that is out of service counted as failed. The main contract
// is that of `BookAtHour::write_sheet`.
#![tactic(auto)]

pub mod hour;
pub mod sheet;
