use ack_vector::{
    RunWriter, flags_of_runs, longest_stretches, numbers_told, read_runs, told, write_runs,
    written_spells,
};
use mt_base::Out;
use std::test::*;

/// These bytes are written, and the others stay.
fn is_written(flags: &[bool], bytes: &[u8]) -> bool {
    let mut out = [0xee; 8];
    write_runs(flags, &mut out) == Ok(bytes.len())
        && out.iter().take(bytes.len()).eq(bytes)
        && out.iter().skip(bytes.len()).all(|byte| *byte == 0xee)
}

#[test]
fn reads_runs(rt: HostRuntime) {
    let runs = [(true, 2), (false, 63), (true, 0), (true, 2)];
    match read_runs(&[0x02, 0xff, 0x00, 0x02]) {
        Ok(read) => assert!(rt; read.map(|run| (run.received, run.length)).eq(runs)),
        Err(_) => assert!(rt; false),
    }
    assert!(rt; matches!(read_runs(&[0x3f, 0xc0, 0x80, 0x40]), Err(2)));
}

#[test]
fn writes_longest_runs(rt: HostRuntime) {
    assert!(rt; is_written(&[true; 64], &[0x3f, 0x01]));
    assert!(rt; is_written(&[false, false, true], &[0xc2, 0x01]));
}

#[test]
fn writes_flag_by_flag(rt: HostRuntime) {
    let mut out = [0; 2];
    let mut place = Out::new(&mut out);
    let mut writer = RunWriter::new();
    for _ in 0..64 {
        assert_eq!(rt; writer.flag(true, &mut place), Ok(()));
    }
    assert_eq!(rt; writer.end(&mut place), Ok(()));
    assert_eq!(rt; out, [0x3f, 0x01]);
}

#[test]
fn tells_numbers(rt: HostRuntime) {
    // 7 was received, 8 and 9 were not, 10 was.
    let elements = [0x01, 0xc2, 0x00, 0x01];
    assert_eq!(rt; told(&elements, 10, 6), None);
    assert_eq!(rt; told(&elements, 10, 7), Some(true));
    assert_eq!(rt; told(&elements, 10, 9), Some(false));
    assert_eq!(rt; told(&elements, 10, 11), None);
}

#[test]
fn laws_hold() {
    longest_stretches();
    written_spells();
    flags_of_runs();
    numbers_told();
}
