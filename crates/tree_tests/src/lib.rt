//! Tests of trees, folds and cells.
#![tactic(auto)]

#[cfg(test)]
mod expansion;
#[cfg(test)]
mod fixtures;
#[cfg(test)]
mod folding;
#[cfg(test)]
mod interval_slots;
#[cfg(test)]
mod key_entries;
#[cfg(test)]
mod merging;
#[cfg(test)]
mod points;
#[cfg(test)]
mod position_entries;
#[cfg(test)]
mod ranges;
#[cfg(test)]
mod row_entries;
#[cfg(test)]
mod runs;
#[cfg(test)]
mod tapes;
#[cfg(test)]
mod thresholds;
