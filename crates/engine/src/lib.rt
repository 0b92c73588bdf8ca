// The C interface: thin exports over the calls of text, rings, groups and listing, one in each module, but for the two
// on groups. include/rumbleog.h declares them for a host.
// Each returns the number of its refusal, 0 for none, and always writes the numbers that it is lent.
#![tactic(auto)]

mod checking;
mod grouping;
mod listings;
mod longest;
mod numbers;
mod program;
mod reading;
mod recalling;
mod ring;
mod times;
mod windows;
mod writing;
