use coded_vector::{
    CodedWriter, chosen_pieces, few_flags, numbers_told, read_coded, told_coded, write_coded,
    written_spells,
};
use mt_base::Out;
use std::test::*;

/// Four received, one missing, one received, four missing.
const TEN: [bool; 10] = [
    true, true, true, true, false, true, false, false, false, false,
];

/// These bytes are written, and the others stay.
fn is_written(flags: &[bool], bytes: &[u8]) -> bool {
    let mut out = [0xee; 8];
    write_coded(flags, &mut out) == Ok(bytes.len())
        && out.iter().take(bytes.len()).eq(bytes)
        && out.iter().skip(bytes.len()).all(|byte| *byte == 0xee)
}

#[test]
fn reads_flags(rt: HostRuntime) {
    let expected = [0, 1, 2, 3, 4, 5, 6, 7, 8, 9].into_iter().zip(TEN);
    assert!(rt; read_coded(&[0xc3, 0x05]).eq(expected));
}

#[test]
fn writes_runs_and_sevens(rt: HostRuntime) {
    assert!(rt; is_written(&TEN, &[0x2f, 0x83]));
    assert!(rt; is_written(&[true; 64], &[0xff, 0xc1]));
}

#[test]
fn writes_flag_by_flag(rt: HostRuntime) {
    let mut out = [0; 2];
    let mut place = Out::new(&mut out);
    let mut writer = CodedWriter::new();
    for flag in TEN {
        assert_eq!(rt; writer.flag(flag, &mut place), Ok(()));
    }
    assert_eq!(rt; writer.end(&mut place), Ok(()));
    assert_eq!(rt; out, [0x2f, 0x83]);
}

#[test]
fn tells_numbers(rt: HostRuntime) {
    // 5, 6, 7, 8 and 10 were received, 9 and 11 to 14 were not.
    assert_eq!(rt; told_coded(&[0xc3, 0x05], 5, 4), None);
    assert_eq!(rt; told_coded(&[0xc3, 0x05], 5, 9), Some(false));
    assert_eq!(rt; told_coded(&[0xc3, 0x05], 5, 10), Some(true));
    assert_eq!(rt; told_coded(&[0xc3, 0x05], 5, 15), None);
}

#[test]
fn laws_hold() {
    chosen_pieces();
    written_spells();
    few_flags();
    numbers_told();
}
