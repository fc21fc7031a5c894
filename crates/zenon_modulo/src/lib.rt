//! Zenon Modulo: an automatic theorem prover of the tableau kind. The top call is `run`, whose contract says what each
//! answer means.
#![tactic(auto)]

mod answer;
mod fragments;
pub mod laws;
mod message;
mod names;
mod options;
mod outcome;
mod proof_file;
mod report;
mod status;
mod text;
mod top;
mod words;

pub use outcome::{InputRefusal, Outcome, Run};
pub use status::status_of;
pub use top::run;
pub use words::UsageRefusal;
