// Terms as trees of bytes, for measuring and writing carried rules. This crate has only definitions and laws.

#![tactic(auto)]
