// Lists as finite sets: definitions and laws alone. This crate has no code.
#![tactic(auto)]
