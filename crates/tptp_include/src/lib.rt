//! Gathers the statements of a text, with each include replaced by the statements of its file.
#![tactic(auto)]

mod file_name;
mod files;
mod gathered;
mod gathering;
mod opening;
mod reading;
mod refusal;
mod selection;

pub use file_name::FileName;
pub use gathered::{Gathered, GatheredStatement};
pub use gathering::{gather, outcomes_are_equal};
pub use refusal::{GatherRefusal, Place};
