// Reads texts of controllers from standard input, one a line, and prints what each reads as.
#![tactic(auto)]

mod readings;

use lines::Input;
use outlet::Outlet;
use programs::Program;
use std::io;
use std::io::{Stdout, Write};

// The program that puts what each line reads as.
#[derive(Clone, Copy)]
struct Texts;

impl Program<Stdout> for Texts {
    fn read(&mut self, text: &[u8], out: &mut Outlet<Stdout>) -> io::Result<()> {
        readings::put_reading(out, text)
    }

    fn too_long(&mut self, out: &mut Outlet<Stdout>) -> io::Result<()> {
        out.write_all(b"too long\n")
    }
}

// Stays: each program has its main, since only a main gets the runtime. Its lines name a reader, a writer and a program;
// a function for all would be given the same three.
fn main(rt: HostRuntime) -> io::Result<()> {
    let mut input = Input::<_, 65536>::new(rt.stdin());
    let mut out = Outlet::new(rt.stdout());
    programs::serve(&mut Texts, &mut input, &mut out)
}
