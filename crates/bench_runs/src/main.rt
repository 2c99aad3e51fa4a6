//! Measures a part of the host at a time, for the scripts in `bench/`. A line of the input is a measurement and its
//! numbers, as `claim 256 1 4`. It is answered by its counts, one a line, or by `refused`. A line `record` is one of
//! the records of `records`.
#![tactic(auto)]

mod ciphers;
mod claims;
mod counts;
mod lanes;
mod records;
mod replay;
mod setting;
mod turns;
mod world;

use ciphers::{chained_aes, chained_des, chained_tdes};
use counts::{Counts, one, read_numbers, two};
use records::{read_all, write_all};
use replay::Deed;
use std::alloc::Global;
use std::io;
use std::sync::Wait;
use std::thread::Threads;

/// The counts of a measurement; `None` if there is none of that name, or if something was refused.
fn measure<R: Threads + Wait + Sync>(
    rt: &R,
    alloc: Global,
    name: &str,
    numbers: [u64; 3],
    records: &[Vec<u8>],
) -> Option<Counts> {
    let [first, second, _] = numbers;
    match name {
        "des" => Some(one(chained_des(first))),
        "tdes" => Some(one(chained_tdes(first))),
        "aes" => {
            let (high, low) = chained_aes(first);
            Some(two(high, low))
        }
        "records" => Some(two(read_all(records, first), write_all(records, second))),
        "claim" => claims::measure(rt, alloc, numbers, false),
        "keep" => claims::measure(rt, alloc, numbers, true),
        "turn" => turns::measure(rt, alloc, numbers, false),
        "add" => turns::measure(rt, alloc, numbers, true),
        "check" => replay::measure(alloc, numbers, Deed::Check),
        "plan" => replay::measure(alloc, numbers, Deed::Plan),
        "answer" => replay::measure(alloc, numbers, Deed::Answer),
        "world" => world::measure(alloc, numbers),
        _ => lanes::measure(alloc, name, numbers),
    }
}

fn main(rt: HostRuntime) -> io::Result<()> {
    let mut records = Vec::new(rt.alloc());
    for line in rt.lines(rt.alloc()) {
        let line = line?;
        let Some((name, rest)) = line.as_str().split_once(' ') else {
            continue;
        };
        if name == "record" {
            records.push(Vec::from_slice(rt.alloc(), rest.as_bytes())?)?;
            continue;
        }
        match measure(
            &rt,
            rt.alloc(),
            name,
            read_numbers(rest),
            records.as_slice(),
        ) {
            Some(counts) => {
                for count in counts.as_slice() {
                    println!(rt; "{count}")?;
                }
            }
            None => println!(rt; "refused")?,
        }
    }
    Ok(())
}
