//! How far a decision goes before it gives up.
#![tactic(auto)]

mod budgets;

pub use budgets::Budgets;
