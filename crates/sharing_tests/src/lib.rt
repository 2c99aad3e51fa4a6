//! Tests of concurrent callers: which of them wins a claim, whose turn it is, and the answers to each caller of a host.
#![tactic(auto)]

#[cfg(test)]
mod claims;
#[cfg(test)]
mod hosts;
#[cfg(test)]
mod lanes;
#[cfg(test)]
mod passes;
#[cfg(test)]
mod turns;
