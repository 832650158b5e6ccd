// The park file: its records, its rules, and the check of a whole file.
#![tactic(auto)]

pub mod fed;
pub mod file;
pub mod generator;
pub mod header;
pub mod laid;
pub mod line;
pub mod meter;
mod number;
pub mod opening;
pub mod records;
pub mod rule;
pub mod site;

pub use opening::{check, open};
