// What a site's lines add up to: rows of sums, and the walks over the lines of an accepted park that make them.
#![tactic(auto)]

pub mod bounded;
pub mod own;
pub mod row;
pub mod walk;
