#![tactic(auto)]

mod circular_book;
mod interfaces;
mod slower_walk;

pub use circular_book::Circular;
pub use interfaces::{Row, RuleBook, WalkingTables};
pub use slower_walk::SlowerWalk;
