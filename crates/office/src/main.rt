#![tactic(auto)]

mod desk;
mod print;
mod reply;
mod room;

use console::{passed_over, read_line};
use desk::Desk;
use print::Shown;
use std::io::BufReader;

// Answers the commands on standard input, one a line, until it ends.
fn main(rt: HostRuntime) -> anyhow::Result<()> {
    let mut input = BufReader::new(rt.alloc(), rt.stdin())?;
    let mut memory = Vec::new(rt.alloc());
    let mut desk = Desk::new();
    // nothing says that the input ends, so the lines are counted
    for _ in 0..u64::MAX {
        let Some(line) = read_line(&mut memory, &mut input)? else {
            break;
        };
        if passed_over(line) {
            continue;
        }
        let reply = desk.reply(line);
        let shown = Shown {
            room: desk.room(),
            reply: &reply,
        };
        println!(rt; "{shown}")?;
    }
    let tally = desk.tally();
    println!(rt; "{tally}")?;
    Ok(())
}
