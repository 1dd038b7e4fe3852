//! Measures how long a call of the heap takes while many cells are live.
//!
//! With a word, such as `time`, the program prints how many nanoseconds each kind of call takes. Without a word, it makes a single round of
//! the calls and prints how many cells are live. This single round has no calls above the holes, and no call of `available`. So the gate,
//! which is the script that checks the whole repository, can run the program without a word.
#![tactic(auto)]

mod filled;

use filled::Filled;
use std::alloc::AllocError;
use std::time::Instant;
use std::{env, io};
use wb_heap_model::heap::Ptr;

/// How many cells are live. Each count has a measurement of its own.
const COUNTS: [u32; 3] = [100, 1_000, 10_000];
/// How many words a measurement stores, and how many cells it looks up. A measurement frees and grants half as many cells.
const CALLS: u32 = 1_000_000;
/// How many cells are granted above the holes in each round.
const PASSES: u32 = 10;

fn main(rt: HostRuntime) -> io::Result<()> {
    let words: Vec<String> = env::args(&rt)?.collect(rt.alloc())?;
    for count in COUNTS {
        if words.len() > 1 {
            time(&rt, count)?;
        } else {
            call_once(&rt, count)?;
        }
    }
    Ok(())
}

/// Prints how long each kind of call takes.
fn time(rt: &HostRuntime, count: u32) -> io::Result<()> {
    let mut cells = Vec::new(rt.alloc());
    let mut filled = Filled::new(rt.alloc(), count, &mut cells)?;
    println!(rt; "{count} live cells:")?;
    time_grants(rt, count, &mut filled, &mut cells)?;
    time_looks(rt, count, &mut filled, &cells)
}

/// Prints how long it takes to grant a cell and to release a cell.
fn time_grants(
    rt: &HostRuntime,
    count: u32,
    filled: &mut Filled,
    cells: &mut Vec<Ptr>,
) -> io::Result<()> {
    let rounds = CALLS / count.max(1);
    let mut freed = 0;
    let mut passed = 0;
    let mut granted = 0;
    for _ in 0..rounds {
        let start = Instant::now(rt)?;
        filled.free_every_second(cells);
        freed = start.elapsed(rt)?.as_nanos().saturating_add(freed);
        let start = Instant::now(rt)?;
        filled.pass_over_holes(PASSES)?;
        passed = start.elapsed(rt)?.as_nanos().saturating_add(passed);
        let start = Instant::now(rt)?;
        filled.fill(cells)?;
        granted = start.elapsed(rt)?.as_nanos().saturating_add(granted);
    }
    let calls = rounds.saturating_mul(count) / 2;
    println!(rt;
        "    alloc {} ns, free {} ns, both above {} holes {} ns",
        a_call(granted, calls),
        a_call(freed, calls),
        count / 2,
        a_call(passed, rounds.saturating_mul(PASSES))
    )
}

/// Prints how long the calls take that only read or write cells.
fn time_looks(
    rt: &HostRuntime,
    count: u32,
    filled: &mut Filled,
    cells: &Vec<Ptr>,
) -> io::Result<()> {
    let rounds = CALLS / count.max(1);
    let start = Instant::now(rt)?;
    for round in 0..rounds {
        filled.store(cells, round);
    }
    let stored = start.elapsed(rt)?.as_nanos();
    let start = Instant::now(rt)?;
    let mut found = 0;
    for _ in 0..rounds {
        found = filled.look_up(cells).saturating_add(found);
    }
    let looked_up = start.elapsed(rt)?.as_nanos();
    let start = Instant::now(rt)?;
    let mut longest = 0;
    for _ in 0..rounds {
        longest = filled.available().1.max(longest);
    }
    let told = start.elapsed(rt)?.as_nanos();
    let calls = rounds.saturating_mul(count);
    println!(rt;
        "    store {} ns, header {} ns, available {} ns ({found} found, {longest} free)",
        a_call(stored, calls),
        a_call(looked_up, calls),
        a_call(told, rounds)
    )
}

/// How many nanoseconds one call takes.
fn a_call(nanoseconds: u128, calls: u32) -> u128 {
    nanoseconds / calls.max(1) as u128
}

/// Makes a single round of calls, and prints how many cells are live during the round.
fn call_once(rt: &HostRuntime, count: u32) -> io::Result<()> {
    let mut cells: Vec<Ptr> = Vec::new(rt.alloc());
    let mut filled = Filled::new(rt.alloc(), count, &mut cells)?;
    filled.free_every_second(&cells);
    let (thinned, _) = filled.live();
    filled.fill(&mut cells)?;
    filled.store(&cells, 1);
    let found = filled.look_up(&cells);
    let (live, bytes) = filled.live();
    println!(rt;
        "{count} live cells: {thinned} once every second is free, then {live} of {bytes} bytes, {found} found"
    )
}
