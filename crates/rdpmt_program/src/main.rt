//! The program `rdpmt`: it plays a script of two ends of a session, and prints what each end sent
//! and what was delivered of it; it shows the datagrams of a show file; and it checks a capture.
//!
//! [`rdpmt`](top::rdpmt) is the whole program over a store of files and a sink; `main` gives it the
//! words of the call and the machine's devices. Below it stand `mt_world`, which reads scripts and
//! plays them, `mt_show`, which shows, `capture_check`, which judges captures, and `mt_outside`, which
//! has the devices. The contract of
//! `rdpmt` names the only cause of each status, and what is printed with it.
#![tactic(auto)]

mod cause;
mod checking;
mod fault;
mod playing;
mod print;
mod reading;
mod showing;
mod top;
mod words;

use fault::Fault;
use mt_outside::{RealFiles, RealSink};
use print::tell;
use std::process::ExitCode;
use std::{env, io};

/// The words after the program's name. Words that are no text are none: no command has such words.
fn call_words(rt: &HostRuntime) -> io::Result<Vec<String>> {
    match env::args(rt) {
        Ok(args) => Ok(args.skip(1).collect(rt.alloc())?),
        Err(error) if error.kind() == io::ErrorKind::InvalidData => Ok(Vec::new(rt.alloc())),
        Err(error) => Err(error),
    }
}

fn main(rt: HostRuntime) -> ExitCode {
    let mut out = RealSink::new(&rt);
    let Ok(words) = call_words(&rt) else {
        return ExitCode::from(tell(&mut out, Err(Fault::NoMemory)));
    };
    let mut files = RealFiles::new(&rt, rt.alloc());
    ExitCode::from(top::rdpmt(rt.alloc(), &words, &mut files, &mut out))
}

#[cfg(test)]
mod tests;
