// The squared sheet on paper (item 1 of document 02).

#![tactic(auto)]

mod lines;
pub mod print;
pub mod typed;
