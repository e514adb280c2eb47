//! Tests of words, values, tables, fields, the forms in memory and connections.
#![tactic(auto)]

#[cfg(test)]
mod connections;
#[cfg(test)]
mod fields;
#[cfg(test)]
mod fixtures;
#[cfg(test)]
mod outside;
#[cfg(test)]
mod tables;
#[cfg(test)]
mod values;
#[cfg(test)]
mod words;
