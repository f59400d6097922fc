//! The program that `bench/core` measures: bytes go from one end of a reliable link to the other, in
//! either layout (MS-RDPEUDP, MS-RDPEUDP2), both ends in this process, with a clock of its own and no
//! socket; or they are copied, for comparison.
//!
//! `link_bench first BYTES LOST AHEAD` lets so many bytes cross a link of version 2, whose datagrams
//! have the first layout, and loses each datagram whose number can be divided by `LOST`, none where it
//! is 0. About `AHEAD` bytes, as far as they find room, are given before the first datagram goes, and
//! then a piece in each turn: so nearly each give finds about so many bytes waiting.
//! `link_bench second BYTES LOST AHEAD` does the same with the second layout, of version 0x0101.
//! `link_bench copy BYTES TIMES` copies as many bytes `TIMES` times. All print `BYTES bytes arrived`
//! where the bytes that came are those that were sent, in order.
//!
//! Below it stand `carrier` with what a link is, `link_net` with the earlier of two moments,
//! `link_core` with the link, and `mt_outside` with the device that it prints on. The contract of
//! [`cross`](crossing::cross) is proved for every kind of link: where it is `Ok`, the near end was
//! given just these bytes and the far end pulled just them.
#![tactic(auto)]

ghost use Rattle.std.specs.Prelude.{◌≡◌, length, IfOk};
ghost use Rattle.link_core.specs.CoreView.{IsVersion};

mod copying;
mod crossing;
mod fault;
mod network;
mod words;

use copying::copy;
use crossing::cross;
use fault::Fault;
use link_core::LinkCore;
use mt_outside::{Failed, RealSink, Sink, write_all};
use std::alloc::Global;
use std::process::ExitCode;
use std::{env, io};
use words::{Layout, Run, read_words};

/// The words after the program's name. Words that are no text are none: no run has such words.
fn call_words(rt: &HostRuntime) -> io::Result<Vec<String>> {
    match env::args(rt) {
        Ok(args) => Ok(args.skip(1).collect(rt.alloc())?),
        Err(error) if error.kind() == io::ErrorKind::InvalidData => Ok(Vec::new(rt.alloc())),
        Err(error) => Err(error),
    }
}

/// So many bytes, 0 to 250 over and over.
fn pattern(alloc: Global, count: usize) -> Result<Vec<u8>, Fault>
    ensures { IfOk result (λ bytes. length bytes.items ≡ count) }
{
    let Ok(mut bytes) = vec![in alloc; 0u8; count] else {
        return Err(Fault::NoMemory);
    };
    let mut next = 0;
    for byte in bytes.iter_mut() {
        *byte = next;
        next = if next < 250 { next + 1 } else { 0 };
    }
    Ok(bytes)
}

/// The version of the links of this layout.
fn version_of(layout: Layout) -> u16
    ensures { IsVersion result }
{
    match layout {
        Layout::First => 0x0002,
        Layout::Second => 0x0101,
    }
}

/// Lets so many bytes cross a link of this layout.
fn run_cross(
    alloc: Global,
    layout: Layout,
    count: usize,
    lost: u64,
    ahead: usize,
) -> Result<(), Fault> {
    let bytes = pattern(alloc, count)?;
    let version = version_of(layout);
    let Ok(mut near) = LinkCore::new(alloc, 1, 1, version) else {
        return Err(Fault::NoMemory);
    };
    let Ok(mut far) = LinkCore::new(alloc, 1, 1, version) else {
        return Err(Fault::NoMemory);
    };
    cross(&mut near, &mut far, &bytes, lost, ahead)
}

/// Copies so many bytes so many times.
fn run_copy(alloc: Global, count: usize, times: u64) -> Result<(), Fault> {
    let bytes = pattern(alloc, count)?;
    let Ok(mut out) = vec![in alloc; 0u8; count] else {
        return Err(Fault::NoMemory);
    };
    copy(&bytes, &mut out, times)
}

/// Runs what the words ask for, and gives how many bytes arrived.
fn run(alloc: Global, words: &Vec<String>) -> Result<usize, Fault> {
    match read_words(words) {
        Some(
            Run::Cross {
                layout,
                bytes,
                lost,
                ahead,
            },
        ) => {
            run_cross(alloc, layout, bytes, lost, ahead)?;
            Ok(bytes)
        }
        Some(Run::Copy { bytes, times }) => {
            run_copy(alloc, bytes, times)?;
            Ok(bytes)
        }
        None => Err(Fault::Usage),
    }
}

/// Prints what a run came to, and answers the status.
fn tell<K: Sink>(alloc: Global, out: &mut K, ended: Result<usize, Fault>) -> u8 {
    match ended {
        Ok(count) => match format!(in alloc; "{count} bytes arrived\n") {
            Ok(line) => print(out, line.as_bytes(), 0),
            Err(_) => print(out, b"no memory\n", 9),
        },
        Err(Fault::Usage) => print(
            out,
            b"usage: link_bench first|second BYTES LOST AHEAD | copy BYTES TIMES\n",
            1,
        ),
        Err(Fault::Wrong) => print(out, b"other bytes arrived\n", 2),
        Err(Fault::GaveUp) => print(out, b"gave up\n", 3),
        Err(Fault::NoMemory) => print(out, b"no memory\n", 9),
    }
}

/// Prints the whole output and answers the status, or answers that it could not.
fn print<K: Sink>(out: &mut K, output: &[u8], status: u8) -> u8 {
    match write_all(out, output) {
        Ok(()) => status,
        Err(Failed) => 4,
    }
}

fn main(rt: HostRuntime) -> ExitCode {
    let alloc = rt.alloc();
    let mut out = RealSink::new(&rt);
    let ended = match call_words(&rt) {
        Ok(words) => run(alloc, &words),
        Err(_) => Err(Fault::NoMemory),
    };
    ExitCode::from(tell(alloc, &mut out, ended))
}

#[cfg(test)]
mod tests;
