// Nothing to run yet: this crate holds the mesh file's definitions and their laws.

#![tactic(auto)]
