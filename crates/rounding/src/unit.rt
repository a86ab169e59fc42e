// U, the number of units in 1: ends are reported in billionths.
pub const UNIT: u64 = 1_000_000_000;
