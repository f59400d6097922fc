use capture_check::{
    Judgement, check, check_datagrams, check_messages, check_numbers, check_tellings, read_capture,
};
use std::test::*;

/// A SYN (MS-RDPEUDP section 2.2) without an extension.
const SYN: &str = "ffffffff004000010000000104d004d0";

/// A SYN+ACK without an extension.
const ANSWER: &str = "00000001004000050000000104d004d0";

/// A SYN+ACK whose extension names version 0x0101 as valid.
const ANSWER_3: &str = "00000001004010050000000104d004d000010101";

/// The same with the version not said to be valid.
const ANSWER_NOT_VALID: &str = "00000001004010050000000104d004d000000101";

/// An acknowledgement of the first layout.
const FIRST: &str = "000000010040000400010000";

/// Data of the second layout (MS-RDPEUDP2 section 2.2): transmission 1, part 1.
const SECOND: &str = "41046001000100e042";

/// What the rules of numbers say of a capture.
fn judged(rt: HostRuntime, text: &[u8]) -> Result<Judgement, Fail> {
    let capture = read_capture(rt.alloc(), text)?;
    let judgement = check_numbers(rt.alloc(), &capture)?;
    Ok(judgement)
}

#[test]
fn an_empty_capture_holds(rt: HostRuntime) -> Result<(), Fail> {
    assert_eq!(rt; judged(rt, b"")?, Judgement::Holds);
    Ok(())
}

#[test]
fn numbers_count_up_by_side_and_kind(rt: HostRuntime) -> Result<(), Fail> {
    let text =
        b"out server lossy 0 -\nout client lossy 0 -\nout server lossy 1 -\nin server lossy 1";
    assert_eq!(rt; judged(rt, text)?, Judgement::Holds);
    Ok(())
}

#[test]
fn the_first_broken_line_is_told(rt: HostRuntime) -> Result<(), Fail> {
    let rows: [(&[u8], u64, u8); 4] = [
        (b"in server reliable 0\nout server reliable 0 -", 1, 2),
        (b"out client reliable 1 -", 1, 1),
        (b"out server lossy 0 -\nin server reliable 0", 2, 2),
        (
            b"out server lossy 0 -\nin client lossy 0\nout server lossy 0 -",
            2,
            2,
        ),
    ];
    for (text, line, rule) in rows {
        assert_eq!(rt; judged(rt, text)?, Judgement::Breaks { line, rule });
    }
    Ok(())
}

/// A datagram of the server, this many of the client, and the arrival of the server's.
fn arrival_after(rt: HostRuntime, others: u64) -> Result<Judgement, Fail> {
    let mut text = String::from_str(rt.alloc(), "out server lossy 0 -\n")?;
    for number in 0..others {
        text.push_str(&format!(in rt.alloc(); "out client lossy {number} -\n")?)?;
    }
    text.push_str("in server lossy 0\n")?;
    judged(rt, text.as_bytes())
}

#[test]
fn a_datagram_may_be_passed_by_1023_others(rt: HostRuntime) -> Result<(), Fail> {
    assert_eq!(rt; arrival_after(rt, 1023)?, Judgement::Holds);
    Ok(())
}

#[test]
fn a_datagram_that_1024_others_passed_is_late(rt: HostRuntime) -> Result<(), Fail> {
    let late = Judgement::Breaks {
        line: 1026,
        rule: 3,
    };
    assert_eq!(rt; arrival_after(rt, 1024)?, late);
    Ok(())
}

/// What the rules up to that of layouts say of a server's datagrams on one link, in order.
fn given(rt: HostRuntime, datagrams: &[&str]) -> Result<Judgement, Fail> {
    let mut text = String::new(rt.alloc());
    let mut number = 0u64;
    for datagram in datagrams {
        text.push_str(&format!(in rt.alloc(); "out server lossy {number} {datagram}\n")?)?;
        number = number.wrapping_add(1);
    }
    let capture = read_capture(rt.alloc(), text.as_bytes())?;
    let judgement = check_datagrams(rt.alloc(), &capture)?;
    Ok(judgement)
}

#[test]
fn datagrams_have_the_layout_of_the_last_answer(rt: HostRuntime) -> Result<(), Fail> {
    let rows: [&[&str]; 4] = [
        &[SYN, ANSWER, FIRST, SYN],
        &[ANSWER_NOT_VALID, FIRST],
        &[ANSWER_3, SECOND, SYN],
        &[ANSWER, FIRST, ANSWER_3, SECOND],
    ];
    for datagrams in rows {
        assert_eq!(rt; given(rt, datagrams)?, Judgement::Holds);
    }
    Ok(())
}

#[test]
fn a_datagram_of_another_layout_breaks_rule_4(rt: HostRuntime) -> Result<(), Fail> {
    let rows: [(&[&str], u64); 5] = [
        (&[FIRST], 1),
        (&[SYN, SECOND], 2),
        (&[ANSWER_3, FIRST], 2),
        (&[ANSWER, FIRST, ANSWER_3, FIRST], 4),
        (&[ANSWER, "-"], 2),
    ];
    for (datagrams, line) in rows {
        assert_eq!(rt; given(rt, datagrams)?, Judgement::Breaks { line, rule: 4 });
    }
    Ok(())
}

/// What the rules up to that of messages say of a capture.
fn heard(rt: HostRuntime, text: &[u8]) -> Result<Judgement, Fail> {
    let capture = read_capture(rt.alloc(), text)?;
    let judgement = check_messages(rt.alloc(), &capture)?;
    Ok(judgement)
}

#[test]
fn messages_come_as_they_were_sent(rt: HostRuntime) -> Result<(), Fail> {
    let rows: [&[u8]; 3] = [
        b"sent server 1 61\nsent server 1 62\ngot client 1 61\ngot client 1 62",
        b"sent server 1 61\nsent client 1 62\nsent server 2 -\ngot client 2 -\ngot server 1 62",
        b"sent server 1 61\nsent server 1 62\nword server lossy 1\ngot client 1 62",
    ];
    for text in rows {
        assert_eq!(rt; heard(rt, text)?, Judgement::Holds);
    }
    Ok(())
}

#[test]
fn another_message_breaks_rule_5(rt: HostRuntime) -> Result<(), Fail> {
    let rows: [(&[u8], u64); 6] = [
        (b"got client 1 61\nsent server 1 61", 1),
        (b"sent server 1 61\ngot server 1 61", 2),
        (b"sent server 1 61\nsent server 1 62\ngot client 1 62", 3),
        (b"sent server 1 61\ngot client 1 61\ngot client 1 61", 3),
        (
            b"sent server 1 61\nsent server 1 62\nword server reliable 1\nword client lossy 1\ngot client 1 62",
            5,
        ),
        (
            b"word server lossy 1\nsent server 1 61\nsent server 1 62\ngot client 1 62\ngot client 1 61",
            5,
        ),
    ];
    for (text, line) in rows {
        assert_eq!(rt; heard(rt, text)?, Judgement::Breaks { line, rule: 5 });
    }
    Ok(())
}

#[test]
fn the_first_line_comes_before_the_least_rule(rt: HostRuntime) -> Result<(), Fail> {
    let rows: [(&[u8], u64, u8); 3] = [
        (b"out client reliable 1 -", 1, 1),
        (b"got client 1 61\nout client reliable 1 -", 1, 5),
        (
            b"out client reliable 0 -\nin server reliable 0\ngot client 1 61",
            1,
            4,
        ),
    ];
    for (text, line, rule) in rows {
        assert_eq!(rt; heard(rt, text)?, Judgement::Breaks { line, rule });
    }
    Ok(())
}

/// Data of the first layout: part 1.
const FIRST_PART: &str = "0000000000400008000000010000000141";

/// A packet of the first layout whose vector tells number 1.
const FIRST_TELLS_1: &str = "000000010040000400010100";

/// An acknowledgement of the second layout: SeqNum 0.
const ACKS_0: &str = "00016000000000e00000";

/// The same of SeqNum 1.
const ACKS_1: &str = "00016001000000e00000";

/// The same of SeqNum 1 with one delayed number.
const ACKS_1_AND_0: &str = "00016001000000e0000100";

/// A vector of the second layout, which tells number 1.
const SECOND_TELLS_1: &str = "00086001008100e00000c1";

/// What the rules up to that of tellings say of a session: the server gives an answer, the client
/// gives a datagram, and it comes where `comes` says so; then the server gives one that tells.
fn told(
    rt: HostRuntime,
    answer: &str,
    given: &str,
    comes: bool,
    tells: &str,
) -> Result<Judgement, Fail> {
    let arrival = if comes { "in client lossy 0\n" } else { "" };
    let text = format!(in rt.alloc();
        "out server lossy 0 {answer}\nout client lossy 0 {given}\n{arrival}out server lossy 1 {tells}\n"
    )?;
    let capture = read_capture(rt.alloc(), text.as_bytes())?;
    let judgement = check_tellings(rt.alloc(), &capture)?;
    Ok(judgement)
}

#[test]
fn numbers_that_came_are_told(rt: HostRuntime) -> Result<(), Fail> {
    let rows = [
        (ANSWER, FIRST_PART, true, FIRST_TELLS_1),
        (ANSWER, FIRST_PART, false, FIRST),
        (ANSWER_3, SECOND, true, ACKS_1),
        (ANSWER_3, SECOND, true, SECOND_TELLS_1),
        (ANSWER_3, SECOND, false, ACKS_0),
        (ANSWER_3, SYN, true, ACKS_0),
    ];
    for (answer, given, comes, tells) in rows {
        assert_eq!(rt; told(rt, answer, given, comes, tells)?, Judgement::Holds);
    }
    Ok(())
}

#[test]
fn a_number_that_did_not_come_breaks_rule_6(rt: HostRuntime) -> Result<(), Fail> {
    let rows = [
        (ANSWER, FIRST_PART, false, FIRST_TELLS_1, 3),
        (ANSWER, FIRST, true, FIRST_TELLS_1, 4),
        (ANSWER_3, SECOND, false, ACKS_1, 3),
        (ANSWER_3, SECOND, false, SECOND_TELLS_1, 3),
        (ANSWER_3, SECOND, true, ACKS_0, 4),
        (ANSWER_3, SECOND, true, ACKS_1_AND_0, 4),
    ];
    for (answer, given, comes, tells, line) in rows {
        assert_eq!(rt;
            told(rt, answer, given, comes, tells)?,
            Judgement::Breaks { line, rule: 6 }
        );
    }
    Ok(())
}

/// What all rules say of a capture.
fn checked(rt: HostRuntime, text: &[u8]) -> Result<Judgement, Fail> {
    let capture = read_capture(rt.alloc(), text)?;
    let judgement = check(rt.alloc(), &capture)?;
    Ok(judgement)
}

#[test]
fn frames_and_requests_keep_all_rules(rt: HostRuntime) -> Result<(), Fail> {
    let rows: [&[u8]; 5] = [
        b"",
        b"main server 03\nmain client 0301\nmain server 010030030300300761",
        b"main server 030300300761\nmain server 0314008000120000000300010001000000010007000000",
        b"main client 030a0090000100000001000000\nmain server 0314008000120000000300010001000000010007000000\nmain client 030300300761",
        b"issue 7 reliable 000102030405060708090a0b0c0d0e0f\nissue 8 lossy 000102030405060708090a0b0c0d0e0f\nout server reliable 0 00000001004000050000000104d004d0\nout client reliable 0 00000000004000080000000100000001001800040700000000000000000102030405060708090a0b0c0d0e0f\nout client reliable 1 0000000000400008000000020000000241",
    ];
    for text in rows {
        assert_eq!(rt; checked(rt, text)?, Judgement::Holds);
    }
    Ok(())
}

#[test]
fn a_fault_or_data_behind_a_word_breaks_rule_7(rt: HostRuntime) -> Result<(), Fail> {
    let rows: [(&[u8], u64); 3] = [
        (b"main server 03\nmain server 0100\nmain client 04", 3),
        (
            b"main server 0314008000120000000300010001000000010007000000\nmain server 03030030\nmain server 0761",
            3,
        ),
        (
            b"main server 0314008000120000000300010001000000010007000000\nmain client 030a0090000100000001000000\nmain client 030300300761",
            3,
        ),
    ];
    for (text, line) in rows {
        assert_eq!(rt; checked(rt, text)?, Judgement::Breaks { line, rule: 7 });
    }
    Ok(())
}

#[test]
fn a_request_that_was_not_issued_breaks_rule_8(rt: HostRuntime) -> Result<(), Fail> {
    let opened =
        "out server reliable 0 00000001004000050000000104d004d0\nout client reliable 0 00000000004000080000000100000001";
    let asks = "001800040700000000000000000102030405060708090a0b0c0d0e0f";
    let rows = [
        ("issue 7 lossy", asks, ""),
        ("issue 8 reliable", asks, ""),
        ("issue 7 reliable", asks, "00"),
        ("issue 7 reliable", "41", ""),
    ];
    for (issue, data, more) in rows {
        let text = format!(in rt.alloc();
            "{issue} 000102030405060708090a0b0c0d0e0f\n{opened}{data}{more}\n"
        )?;
        let broken = Judgement::Breaks { line: 3, rule: 8 };
        assert_eq!(rt; checked(rt, text.as_bytes())?, broken);
    }
    let twice =
        b"issue 7 reliable 000102030405060708090a0b0c0d0e0f\nissue 7 lossy 000102030405060708090a0b0c0d0e0f";
    assert_eq!(rt; checked(rt, twice)?, Judgement::Breaks { line: 2, rule: 8 });
    Ok(())
}
