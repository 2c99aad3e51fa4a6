//! Whole runs of the top call: over desks, stores and sinks in memory, with failing devices, and with several callers.
#![tactic(auto)]

#[cfg(test)]
mod callers;
#[cfg(test)]
mod clearings;
#[cfg(test)]
mod failing_devices;
#[cfg(test)]
mod feeds;
#[cfg(test)]
mod loading_order;
#[cfg(test)]
mod migrations;
#[cfg(test)]
mod own_devices;
#[cfg(test)]
mod pieces;
#[cfg(test)]
mod pin_changes;
#[cfg(test)]
mod running;
#[cfg(test)]
mod samples;
#[cfg(test)]
mod watched;
#[cfg(test)]
mod worked_rows;
