// What programs print: why there is no answer, ends, stores and the state as they stand after a call, and checksums.
#![tactic(auto)]

pub mod checksum;
pub mod no_answer;
pub mod shown;
