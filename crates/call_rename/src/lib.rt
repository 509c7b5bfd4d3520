// What rename does on an accepted image, whose facts are known.
#![tactic(auto)]

mod rename;
mod retitle;

pub use rename::serve_rename;
