ghost use Rattle.std.specs.Prelude.{◌≤◌, vec_len, IfOk};

use crate::{Incoming, KeepFault, Outgoing, OwnFile, PathRefusal};
use mt_base::NoMemory;
use mt_outside::{MemoryFiles, MemorySink};
use std::alloc::Global;
use std::test::*;

/// The files of two paths.
fn two_files(alloc: Global, first: &str, second: &str) -> Result<Vec<OwnFile>, PathRefusal>
    ensures { IfOk result (λ files. vec_len files ≤ 2) }
{
    let mut files = Vec::new(alloc);
    let Ok(()) = files.push(OwnFile::new(alloc, first)?) else {
        return Err(PathRefusal::NoMemory);
    };
    let Ok(()) = files.push(OwnFile::new(alloc, second)?) else {
        return Err(PathRefusal::NoMemory);
    };
    Ok(files)
}

#[test]
fn files_are_sent_and_kept(rt: HostRuntime) -> Result<(), Fail> {
    let alloc = rt.alloc();
    let long = [7u8].as_slice().repeat(alloc, 65_537)?;
    let mut store = MemoryFiles::new(alloc, Vec::new(alloc));
    store.put("a/long", long.as_slice())?;
    store.put("empty", b"")?;
    let mut outgoing = Outgoing::new(alloc, two_files(alloc, "a/long", "empty")?)?;
    let mut incoming = Incoming::new(alloc, String::from_str(alloc, "in.")?);
    for _ in 0..5 {
        assert!(rt; !outgoing.is_done());
        outgoing.make(&mut store)?;
        incoming.read(outgoing.next().ok_or(NoMemory)?, &mut store)?;
        outgoing.pass();
    }
    assert!(rt; outgoing.is_done());
    assert_eq!(rt; outgoing.bytes_read(), 65_537);
    assert!(rt; incoming.is_ended());
    assert_eq!(rt; incoming.messages(), 5);
    assert_eq!(rt; incoming.files().len(), 2);
    assert_eq!(rt; store.content("in.long").ok_or(NoMemory)?, long.as_slice());
    assert_eq!(rt; store.content("in.empty").ok_or(NoMemory)?, [].as_slice());
    let mut sink = MemorySink::new(alloc, Vec::new(alloc));
    incoming.print(alloc, "", &mut sink)?;
    let lines = b"got long 65537 5ada55500fc283f478a1303fb529ad69626d1ce9209ebc5878f9a45de61e635e\n\
got empty 0 e3b0c44298fc1c149afbf4c8996fb92427ae41e4649b934ca495991b7852b855\n\
done\n";
    assert_eq!(rt; sink.written(), lines.as_slice());
    Ok(())
}

#[test]
fn what_no_list_has_is_refused(rt: HostRuntime) -> Result<(), Fail> {
    let alloc = rt.alloc();
    let mut store = MemoryFiles::new(alloc, Vec::new(alloc));
    let mut incoming = Incoming::new(alloc, String::from_str(alloc, "in.")?);
    assert_eq!(rt;
        incoming.read(b"Dx", &mut store),
        Err(KeepFault::BadMessage)
    );
    assert_eq!(rt; incoming.messages(), 0);
    assert!(rt; OwnFile::new(alloc, "a/").is_err());
    Ok(())
}

#[test]
fn a_file_has_a_path_and_a_name(rt: HostRuntime) -> Result<(), Fail> {
    let file = OwnFile::new(rt.alloc(), "a/b")?;
    assert_eq!(rt; file.path(), "a/b");
    assert_eq!(rt; file.name(), "b");
    Ok(())
}
