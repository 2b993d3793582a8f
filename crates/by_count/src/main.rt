// Reads from standard input what a phase is to charge, one a line, and prints the phases that charge by its count.
#![tactic(auto)]

mod requests;

use lines::Input;
use outlet::Outlet;
use phase_total::Windows;
use programs::Program;
use requests::Request;
use std::io;
use std::io::{Stdout, Write};

// Puts the phases of an answer, each as a phase line of a script.
fn put_windows(out: &mut Outlet<Stdout>, windows: &Windows) -> io::Result<()> {
    for (i, p) in windows.as_slice().iter().enumerate() {
        if i > 0 {
            out.write_all(b" | ")?;
        }
        write!(
            out,
            "{} {} {} {} {} {} {}",
            p.pri, p.pcx, p.repx, p.pcn, p.repn, p.ci, p.pd
        )?;
    }
    out.write_all(b"\n")
}

// Puts the answer to a request: phases, or the number of a refusal.
fn put_answer(out: &mut Outlet<Stdout>, request: Request) -> io::Result<()> {
    match request.charging.windows(request.spacing) {
        Ok(windows) => put_windows(out, &windows),
        Err(why) => writeln!(out, "no {}", why.number()),
    }
}

// The program that answers each line.
#[derive(Clone, Copy)]
struct ByCount;

impl Program<Stdout> for ByCount {
    fn read(&mut self, text: &[u8], out: &mut Outlet<Stdout>) -> io::Result<()> {
        match requests::read(text) {
            Some(request) => put_answer(out, request),
            None => out.write_all(b"bad\n"),
        }
    }
}

// Stays: each program has its main, since only a main gets the runtime. Its lines name a reader, a writer and a program;
// a function for all would be given the same three.
fn main(rt: HostRuntime) -> io::Result<()> {
    let mut input = Input::<_, 65536>::new(rt.stdin());
    let mut out = Outlet::new(rt.stdout());
    programs::serve(&mut ByCount, &mut input, &mut out)
}
