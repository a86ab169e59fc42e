// Work windows: the level of an hour. The main contract is that of `question::question_at_hour`.
#![tactic(auto)]

mod judge;
pub mod question;
