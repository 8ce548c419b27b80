// The packages of an application, by the manifests in its folder: which packages there are, where their dependency names lead, and the canonical name of each.
#![tactic(auto)]

pub mod fault;
pub mod field;
mod gathering;
pub mod graph;
pub mod limits;
pub mod link;
pub mod manifest;
mod naming;
mod nearest;
mod order;
pub mod package_name;
mod reading;
pub mod standing;
mod waiting;
