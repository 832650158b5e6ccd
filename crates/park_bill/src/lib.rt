// The bill of every site of a park file.
#![tactic(auto)]

pub mod bill;
pub mod call;
mod site;

pub use call::{bill_park, bill_park_by, bill_site, bill_site_by};
pub use park_charge::SurchargeBy;
