//! Tests of the PDUs that messages are cut into.

use dvc_channels::{
    fragment_of, fragments, fragments_are_fewest, fragments_make_messages, fragments_size,
};
use std::test::*;

#[test]
fn messages_are_cut_by_the_size_of_the_id(rt: HostRuntime) -> Result<(), Fail> {
    // A Data PDU has room for 1,598, 1,597 or 1,595 bytes by the size of the id; a DataFirst for 2
    // or 4 fewer, by the size of the length.
    let counts = [
        (1, 1598, 1, 1600),
        (1, 1599, 2, 1605),
        (1, 3195, 3, 3203),
        (1, 1_048_576, 657, 1_049_894),
        (65_536, 3188, 2, 3200),
        (65_536, 3189, 3, 3206),
    ];
    for (id, length, count, size) in counts {
        assert_eq!(rt; fragments(id, length), count);
        assert_eq!(rt; fragments_size(id, length), size);
    }
    Ok(())
}

#[test]
fn fragments_are_full_but_the_last(rt: HostRuntime) -> Result<(), Fail> {
    let message = [0x61; 4000];
    let mut out = [0; 1600];
    assert_eq!(rt; fragment_of(1, &message, 0, &mut out), 1600);
    assert_eq!(rt; &out[..5], b"\x24\x01\xa0\x0fa" as &[u8]);
    assert_eq!(rt; fragment_of(1, &message, 2, &mut out), 808);
    assert_eq!(rt; &out[..3], b"\x30\x01a" as &[u8]);
    fragments_make_messages();
    fragments_are_fewest();
    Ok(())
}
