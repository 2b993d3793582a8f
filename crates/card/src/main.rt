// Runs a script of commands on a card of lines from standard input, and prints what the lines answer and the notices
// that their dispatcher sends.
#![tactic(auto)]

mod cards;
mod commands;
mod pending;
mod ticks;

use cards::Card;
use lines::Input;
use outlet::Outlet;
use std::io;

// Stays: each program has its main, since only a main gets the runtime. Its lines name a reader, a writer and a program;
// a function for all would be given the same three.
fn main(rt: HostRuntime) -> io::Result<()> {
    let mut input = Input::<_, 65536>::new(rt.stdin());
    let mut out = Outlet::new(rt.stdout());
    programs::serve(&mut Card::new(), &mut input, &mut out)
}
