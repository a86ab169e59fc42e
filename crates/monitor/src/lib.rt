// The monitor: a level put to what is held. The main contract is that of `question::question`.
#![tactic(auto)]

pub mod question;
