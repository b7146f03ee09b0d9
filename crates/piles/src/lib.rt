// Examples of arc rules: one that `arc_rules` does not have, and piles of layers, tried against a plain loop.
#![tactic(auto)]

pub mod even;
#[cfg(test)]
mod tests;

pub use even::EvenArcs;
