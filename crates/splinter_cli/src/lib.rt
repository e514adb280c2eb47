//! The command line of private SQL over two providers: the top call.
#![tactic(auto)]

mod top;

pub use top::run;
