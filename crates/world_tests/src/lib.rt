//! Tests of worlds of cards and callers: chosen events, random events, and small runs of the large world.
#![tactic(auto)]

#[cfg(test)]
mod drawn_events;
#[cfg(test)]
mod falling;
#[cfg(test)]
mod last_pins;
#[cfg(test)]
mod plain_world;
#[cfg(test)]
mod plays;
#[cfg(test)]
mod random_events;
#[cfg(test)]
mod restarts;
