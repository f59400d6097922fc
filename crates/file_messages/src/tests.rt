use crate::{
    BadFileMessage, FileReader, FileStep, PIECE, is_file_name, name_message, piece_message,
    sent_name,
};
use std::test::*;

#[test]
fn a_file_is_read_as_it_came(rt: HostRuntime) -> Result<(), Fail> {
    let mut reader = FileReader::new();
    assert!(rt;
        matches!(
            reader.read(b"Na.txt"),
            Ok(FileStep::Begins { name: "a.txt" })
        )
    );
    assert!(rt; matches!(reader.read(b"Dhel"), Ok(FileStep::Adds { bytes: b"hel" })));
    assert!(rt; matches!(reader.read(b"Dlo"), Ok(FileStep::Adds { bytes: b"lo" })));
    assert!(rt;
        matches!(
            reader.read(b"Nempty"),
            Ok(FileStep::Begins { name: "empty" })
        )
    );
    assert!(rt; !reader.is_ended());
    assert!(rt; matches!(reader.read(b""), Ok(FileStep::Ends)));
    assert!(rt; reader.is_ended());
    Ok(())
}

#[test]
fn what_no_list_has_is_refused(rt: HostRuntime) -> Result<(), Fail> {
    let mut reader = FileReader::new();
    for message in [
        b"Dx".as_slice(),
        b"N",
        b"Na/b",
        b"Na\0",
        b"N\xff",
        b"n",
        b"X",
    ] {
        assert!(rt; reader.read(message).is_err());
    }
    assert!(rt; reader.read(b"Nx").is_ok());
    assert!(rt; reader.read(b"D").is_err());
    assert!(rt; reader.read(b"").is_ok());
    assert!(rt; reader.read(b"").is_err());
    Ok(())
}

#[test]
fn messages_are_written(rt: HostRuntime) -> Result<(), Fail> {
    let mut out = [0; 8];
    assert_eq!(rt; name_message("a.txt", &mut out), 6);
    assert_eq!(rt; out, *b"Na.txt\0\0");
    assert_eq!(rt; piece_message(b"hi", &mut out), 3);
    assert_eq!(rt; out, *b"Dhitxt\0\0");
    assert_eq!(rt; PIECE, 65_536);
    Ok(())
}

#[test]
fn a_path_is_sent_under_its_last_part(rt: HostRuntime) -> Result<(), Fail> {
    assert_eq!(rt; sent_name("a/b/c.txt"), Some("c.txt"));
    assert_eq!(rt; sent_name("c.txt"), Some("c.txt"));
    assert_eq!(rt; sent_name("a/"), None);
    assert!(rt; is_file_name("c.txt"));
    assert!(rt; !is_file_name(""));
    Ok(())
}

#[test]
fn the_refusal_has_a_name(rt: HostRuntime) -> Result<(), Fail> {
    assert_eq!(rt; BadFileMessage.name(), "BadFileMessage");
    Ok(())
}
