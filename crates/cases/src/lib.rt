// Nothing to run: this crate holds computed examples of the definitions in `rules`.

#![tactic(auto)]
