//! Tests of the command line that no case can say: what its words mean, statuses that no
//! command ends with, and real files, random words and output.
#![tactic(auto)]

#[cfg(test)]
mod host_forms;
#[cfg(test)]
mod statuses;
#[cfg(test)]
mod words;
