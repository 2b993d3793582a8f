// Runs a script of metering commands from standard input, and prints what the line answers and tells.
#![tactic(auto)]

mod gateway;

use gateway::Gateway;
use lines::Input;
use outlet::Outlet;
use std::io;

// Stays: each program has its main, since only a main gets the runtime. Its lines name a reader, a writer and a program;
// a function for all would be given the same three.
fn main(rt: HostRuntime) -> io::Result<()> {
    let mut input = Input::<_, 65536>::new(rt.stdin());
    let mut out = Outlet::new(rt.stdout());
    programs::serve(&mut Gateway::default(), &mut input, &mut out)
}
