// The finder's steps under C names, for bench/: each tests what the step requires, and answers 4,294,967,295, with nothing changed, where that does not hold.
// A slice crosses as its pointer and its length, an array as its pointer, a float as its bit pattern. A step's numbers are lent as one array.
#![tactic(auto)]

mod boxes;
mod geometry;
mod guards;
mod ranking;
mod sweep;
