// What write does on an accepted image, whose facts are known.
#![tactic(auto)]

mod grow;
mod write;

pub use write::serve_write;
