// Measures how fast rule texts are read, with the argument `measure`. Without it one text is read once.
#![tactic(auto)]

mod rule_text;

use refusals::Refused;
use rule_text::fill_rule;
use rules::{Node, read};
use std::env;
use std::time::Instant;

// How many nodes a text of 16,000 bytes can have, with room to spare.
const PLACES: usize = 16384;

// How often the text is read to measure.
const ROUNDS: u64 = 2000;

fn main(rt: HostRuntime) -> anyhow::Result<()> {
    let mut text = [b' '; 16000];
    fill_rule(&mut text);
    let mut table = vec![in rt.alloc(); Node::BLANK; PLACES]?;
    if env::args(&rt)?.any(|argument| argument.as_str() == "measure") {
        measure(&rt, &text, &mut table)
    } else {
        read_once(&rt, &text, &mut table)
    }
}

fn read_once(rt: &HostRuntime, text: &[u8], table: &mut [Node]) -> anyhow::Result<()> {
    let bytes = text.len();
    match read(text, table) {
        Ok(reading) => {
            let nodes = reading.over(table).nodes().len();
            println!(rt; "read {bytes} bytes into {nodes} nodes")?;
        }
        Err(why) => println!(rt; "{}", Refused(&why))?,
    }
    Ok(())
}

fn measure(rt: &HostRuntime, text: &[u8], table: &mut [Node]) -> anyhow::Result<()> {
    let start = Instant::now(rt)?;
    let accepted = (0..ROUNDS).filter(|_| read(text, table).is_ok()).count();
    let nanos = start.elapsed(rt)?.as_nanos();
    let bytes = accepted as u128 * text.len() as u128;
    let a_second = bytes.saturating_mul(1_000_000_000) / nanos.max(1);
    println!(rt; "reading: {a_second} bytes a second")?;
    Ok(())
}
