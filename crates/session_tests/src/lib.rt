//! Tests of a provider's answer and of a client's session that no case can say: those over the toy expander, whose
//! words were worked by hand, those of a second round, and those over links and doors.
#![tactic(auto)]

#[cfg(test)]
mod answering;
#[cfg(test)]
mod linking;
#[cfg(test)]
mod rounds;
#[cfg(test)]
mod serving;
