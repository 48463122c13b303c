//! The program `review` as one call: the words of the command line in, a report and a status out.
//!
//! `run` reads the request, does its job (`specs/Job.antt` says what that gives, over what the files tell), and ends as every
//! program of the house does (`job_core`).
#![tactic(auto)]

mod asking;
mod comparison;
mod generated;
pub mod laws;
mod reading;
mod rows;
mod tables;
mod top;
mod tracing;

pub use tables::Tables;
pub use top::run;
