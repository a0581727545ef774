// Scripts that draft schemas: one command a line, and a printed answer to each.
#![tactic(auto)]

mod command;
mod failure;
mod hints;
mod run;
mod session;
mod show;
mod words;

pub use command::{Command, Line, Select};
pub use failure::Failure;
pub use hints::{HintLine, HintType};
pub use run::run_program;
pub use session::{Answer, Session};
