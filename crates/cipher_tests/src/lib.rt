//! Tests of the ciphers, the keys and secure messaging against published values and those of other programs.
#![tactic(auto)]

#[cfg(test)]
mod aes_blocks;
#[cfg(test)]
mod block_ciphers;
#[cfg(test)]
mod card_cryptograms;
#[cfg(test)]
mod derived_keys;
#[cfg(test)]
mod many_cryptograms;
#[cfg(test)]
mod many_lanes;
#[cfg(test)]
mod pin_changes;
#[cfg(test)]
mod response_cryptograms;
#[cfg(test)]
mod sealed_commands;
#[cfg(test)]
mod suite_macs;
#[cfg(test)]
mod text_macs;
