// The tag's link (01, "The tag's link"; ISO 15628, clause 7): what a BST, a release and a passing tick make of it, and the VST that answers a BST.

#![tactic(auto)]

mod elements;
mod hearing;
mod known;
mod offer;
mod phases;
mod records;

pub use hearing::hear_bst;
pub use phases::{release, tick};
pub use records::{Beacon, Configuration, Element, Elements, Link, Phase};
