// A mesh file's bytes, as reading asks for them (request L3): the numbers in them, whether its length and its bodies are right, a record by its
// place, and the record that has a key, found by halving.

#![tactic(auto)]

pub mod cells;
pub mod kinds;
pub mod layout;
pub mod records;
pub mod search;
