// What cut does on an accepted image, whose facts are known.
#![tactic(auto)]

mod cut;
mod shorten;

pub use cut::serve_cut;
