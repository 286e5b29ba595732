// The transaction: one call path for every edit. It stands for plexus' `transact.rs` and `mutation/mod.rs`: an edit works in lent room, on a copy of the
// mesh, and what it left there is copied over only when it is accepted. One that can't be refused any more when it begins (vertex insert, face removal)
// is written straight into the mesh.
// Document 01's "Order", "What must change shape" and "How a call is held to its word".

#![tactic(auto)]

pub mod call;
