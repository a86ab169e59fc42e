// The three work slices that a caller lends: at place i the ends of node i and their marks.
#![tactic(auto)]

pub mod slices;
