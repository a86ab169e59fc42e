// The seven terms in hundredths (000, table 5): a row for each term, of its a, its b = c and its d.
pub const TERMS: [[u32; 3]; 7] = [
    [0, 4, 8],
    [7, 13, 19],
    [17, 27, 37],
    [35, 50, 65],
    [62, 73, 82],
    [81, 87, 93],
    [92, 96, 100],
];
