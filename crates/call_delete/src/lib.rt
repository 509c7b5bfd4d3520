// What delete does on an accepted image, whose facts are known.
#![tactic(auto)]

mod delete;
mod take;

pub use delete::serve_delete;
