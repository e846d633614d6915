// The rules of document 01 as definitions, and what follows from them. This crate has no code.
#![tactic(auto)]
