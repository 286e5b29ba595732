// Nothing to run: this crate holds theorems over the definitions in `rules`.

#![tactic(auto)]
