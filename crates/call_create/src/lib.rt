// What create does on an accepted image, whose facts are known.
#![tactic(auto)]

mod add;
mod create;

pub use add::whole;
pub use create::serve_create;
