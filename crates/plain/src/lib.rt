// The plain words that every definition is written with: a choice, both of two tests, an answer. The crate has no code.
#![tactic(auto)]
