//! Tests of what the host reads and writes: data objects, fields, lines, records and requests.
#![tactic(auto)]

#[cfg(test)]
mod chip_values;
#[cfg(test)]
mod counter_sets;
#[cfg(test)]
mod data_objects;
#[cfg(test)]
mod feed_lines;
#[cfg(test)]
mod filled_lists;
#[cfg(test)]
mod input_lines;
#[cfg(test)]
mod record_lines;
#[cfg(test)]
mod written_requests;
