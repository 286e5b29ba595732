// The order of answers, in two pieces that the transaction joins: what is decided before the first change (1, 2, the Rust's checks, 2 for
// moved coordinates, 7), and what is settled after the work (a refusal in mid-edit, 8, or what the work told). Document 01's "Order". And the rooms: the
// mesh copied in, copied over when the edit is accepted, and zero when the call ends.

#![tactic(auto)]

pub mod decide;
pub mod rooms;
pub mod settle;
