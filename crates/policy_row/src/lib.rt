// Policies of LavaMoat's form: what each package is granted, read from JSON, written as JSON, and merged with an override.
#![tactic(auto)]

pub mod entries;
pub mod fault;
pub mod grade;
pub mod laws;
pub mod merging;
pub mod policy;
pub mod reading;
pub mod row;
pub mod writing;
