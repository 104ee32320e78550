// Plays a day file from standard input over the yen hours, and prints the tape.
#![tactic(auto)]

mod play;
#[cfg(test)]
mod tests;

use calendar::{Group, Timetable};
use play::day_text;
use std::io;
use std::io::Read;
use terms::LONGEST_FILE;

// One byte more than a day file may have shows that it is too long.
const MOST_READ: u64 = LONGEST_FILE as u64 + 1;

fn main(rt: HostRuntime) -> io::Result<()> {
    let mut file = Vec::new(rt.alloc());
    let _ = rt.stdin().take(MOST_READ).read_to_end(&mut file)?;
    let text = day_text(rt.alloc(), Timetable::new(Group::Yen), file.as_slice())?;
    print!(rt; "{text}")
}
