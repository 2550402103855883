// Plays the primary of one card: reads corrections in the order in which they arrive and says which stand.
#![tactic(auto)]

use desk::play::Play;
use script::arrival::Arrival;
use script::gather::Gather;
use std::io::Read;

// Answers the line that was gathered, and makes room for the next.
fn answer(rt: &HostRuntime, play: &mut Play, line: &mut Gather) -> anyhow::Result<()> {
    let reply = play.answer(Arrival::of_gathered(line));
    println!(rt; "{reply}")?;
    line.clear();
    Ok(())
}

// Reads some bytes and answers the lines that they end; false at the end of the input.
fn read_on(rt: &HostRuntime, play: &mut Play, line: &mut Gather) -> anyhow::Result<bool> {
    let mut bytes = [0u8; 4096];
    let count = rt.stdin().read(&mut bytes)?;
    for byte in &bytes[0..count] {
        if line.push(*byte) {
            answer(rt, play, line)?;
        }
    }
    Ok(0 < count)
}

fn run(rt: &HostRuntime) -> anyhow::Result<()> {
    let mut play = Play::new(rt.alloc())?;
    let mut line = Gather::new();
    for _ in 0..u64::MAX {
        if !read_on(rt, &mut play, &mut line)? {
            break;
        }
    }
    if !line.is_empty() {
        answer(rt, &mut play, &mut line)?;
    }
    let summary = play.summary();
    println!(rt; "{summary}")?;
    Ok(())
}

fn main(rt: HostRuntime) -> anyhow::Result<()> {
    run(&rt)
}
