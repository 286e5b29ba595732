// Nothing to run: this crate holds definitions, the edits with their makers left open, and the makers that the code has.

#![tactic(auto)]
