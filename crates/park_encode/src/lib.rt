// A park file made of a customer's numbers.
#![tactic(auto)]

pub mod call;
mod list;
mod write;

pub use call::encode;
