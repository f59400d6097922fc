//! What a line of a show file asks for.

ghost use Rattle.std.specs.Prelude.{◌++◌, ◌∷◌, codes, IfOk};
ghost use Rattle.mt_script.specs.Spelling.{side_name};
ghost use Rattle.mt_show.specs.Steps.{Asks};

use mt_base::{NoMemory, Role};
use mt_script::{Text, hex_bytes};
use std::alloc::Global;

/// The most bytes of a datagram of the second layout.
const MOST: usize = 1232;

/// What is to be shown.
#[derive(Drop)]
pub(crate) enum Asked {
    /// `v1 HEX`: the bytes as a datagram of the first layout (MS-RDPEUDP section 2.2).
    FirstLayout { bytes: Text },
    /// `v2 HEX`: the bytes, at most 1,232, as a datagram of the second layout (MS-RDPEUDP2 section
    /// 2.2).
    SecondLayout { bytes: Text },
    /// `tunnel HEX`: the bytes as the front of a tunnel's stream (MS-RDPEMT section 2.2).
    Tunnel { bytes: Text },
    /// `frame HEX`: the bytes as the front of the main stream.
    MainStream { bytes: Text },
    /// `dvc server HEX` or `dvc client HEX`: the bytes as a channel PDU that this end wrote
    /// (MS-RDPEDYC section 2.2).
    Channel { from: Role, bytes: Text },
}

/// What a line asks for, `None` where it is none of a show file.
pub(crate) fn read_line(alloc: Global, line: &[u8]) -> Result<Option<Asked>, NoMemory>
    ensures { IfOk result (Asks line.now) }
{
    if let Some(word) = line.strip_prefix(b"v1 ".as_slice()) {
        return first_layout(alloc, word);
    }
    if let Some(word) = line.strip_prefix(b"v2 ".as_slice()) {
        return second_layout(alloc, word);
    }
    if let Some(word) = line.strip_prefix(b"tunnel ".as_slice()) {
        return tunnel(alloc, word);
    }
    if let Some(word) = line.strip_prefix(b"frame ".as_slice()) {
        return main_stream(alloc, word);
    }
    if let Some(word) = line.strip_prefix(b"dvc server ".as_slice()) {
        return channel(alloc, Role::Server, word);
    }
    if let Some(word) = line.strip_prefix(b"dvc client ".as_slice()) {
        return channel(alloc, Role::Client, word);
    }
    Ok(None)
}

/// What a line asks for that has this behind `v1 `.
fn first_layout(alloc: Global, word: &[u8]) -> Result<Option<Asked>, NoMemory>
    ensures { IfOk result (Asks (codes "v1 " ++ word.now)) }
{
    match hex_bytes(alloc, word) {
        Ok(Some(bytes)) => Ok(Some(Asked::FirstLayout { bytes })),
        Ok(None) => Ok(None),
        Err(NoMemory) => Err(NoMemory),
    }
}

/// What a line asks for that has this behind `v2 `.
fn second_layout(alloc: Global, word: &[u8]) -> Result<Option<Asked>, NoMemory>
    ensures { IfOk result (Asks (codes "v2 " ++ word.now)) }
{
    match hex_bytes(alloc, word) {
        Ok(Some(bytes)) => {
            if bytes.bytes().len() > MOST {
                return Ok(None);
            }
            Ok(Some(Asked::SecondLayout { bytes }))
        }
        Ok(None) => Ok(None),
        Err(NoMemory) => Err(NoMemory),
    }
}

/// What a line asks for that has this behind `tunnel `.
fn tunnel(alloc: Global, word: &[u8]) -> Result<Option<Asked>, NoMemory>
    ensures { IfOk result (Asks (codes "tunnel " ++ word.now)) }
{
    match hex_bytes(alloc, word) {
        Ok(Some(bytes)) => Ok(Some(Asked::Tunnel { bytes })),
        Ok(None) => Ok(None),
        Err(NoMemory) => Err(NoMemory),
    }
}

/// What a line asks for that has this behind `frame `.
fn main_stream(alloc: Global, word: &[u8]) -> Result<Option<Asked>, NoMemory>
    ensures { IfOk result (Asks (codes "frame " ++ word.now)) }
{
    match hex_bytes(alloc, word) {
        Ok(Some(bytes)) => Ok(Some(Asked::MainStream { bytes })),
        Ok(None) => Ok(None),
        Err(NoMemory) => Err(NoMemory),
    }
}

/// What a line asks for that has this behind `dvc ` and the end that wrote the PDU.
fn channel(alloc: Global, from: Role, word: &[u8]) -> Result<Option<Asked>, NoMemory>
    ensures { IfOk result (Asks (codes "dvc " ++ (side_name from ++ (32 ∷ word.now)))) }
{
    match hex_bytes(alloc, word) {
        Ok(Some(bytes)) => Ok(Some(Asked::Channel { from, bytes })),
        Ok(None) => Ok(None),
        Err(NoMemory) => Err(NoMemory),
    }
}
