//! Tests of a card's model, its script queue and stored replies, the settlement, the decision table, and the issuer's parts.
#![tactic(auto)]

#[cfg(test)]
mod issuers;
#[cfg(test)]
mod model;
#[cfg(test)]
mod queues;
#[cfg(test)]
mod replies;
#[cfg(test)]
mod settlement;
#[cfg(test)]
mod tables;
