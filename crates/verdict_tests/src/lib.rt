//! Tests of the clearing check: the texts of whole checks, each verdict, and a book of many records.
#![tactic(auto)]

#[cfg(test)]
mod checks;
#[cfg(test)]
mod many;
#[cfg(test)]
mod setting;
#[cfg(test)]
mod verdicts;
