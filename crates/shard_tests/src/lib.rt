//! Tests of the stores in memory, and of a shard over one.
#![tactic(auto)]

#[cfg(test)]
mod bridges;
#[cfg(test)]
mod exports;
#[cfg(test)]
mod journals;
#[cfg(test)]
mod migration;
#[cfg(test)]
mod standbys;
#[cfg(test)]
mod stores;
#[cfg(test)]
mod taking;
#[cfg(test)]
mod truncation;
