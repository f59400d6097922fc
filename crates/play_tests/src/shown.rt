use mt_show::{ShowRefusal, one_output, show};
use std::test::*;

#[test]
fn packets_of_the_first_layout_are_shown(rt: HostRuntime) -> Result<(), Fail> {
    let rows = [
        (
            "v1 000000020040000400010200",
            "v1 ack=2 window=64 marks=0000 vector=r2 bare rest=0\n",
        ),
        (
            "v1 000000010040000400010000",
            "v1 ack=1 window=64 marks=0000 vector=r0 bare rest=0\n",
        ),
        (
            "v1 000000070040010c000302c33fffffff0000000600000009000000084142",
            "v1 ack=7 window=64 marks=0000 vector=r2,m3,r63 aoa=6 data coded=9 start=8 bytes=4142\n",
        ),
        (
            "v1 000000010040001800000003000000020504ffff0aff",
            "v1 ack=1 window=64 marks=0000 fec coded=3 start=2 range=5 index=4 bytes=0aff\n",
        ),
        (
            "v1 000000010040001400000000010203",
            "v1 ack=1 window=64 marks=0010 vector=- bare rest=3\n",
        ),
    ];
    for (line, answer) in rows {
        assert_eq!(rt;
            show(rt.alloc(), line.as_bytes())?.bytes(),
            answer.as_bytes()
        );
    }
    Ok(())
}

#[test]
fn openings_are_shown(rt: HostRuntime) -> Result<(), Fail> {
    let rows = [
        (
            "v1 0000000500401a050000000a046c04d0abababababababababababababababababababababababababababababababab00010002",
            "v1 ack=5 window=64 marks=0200 synack initial=10 up=1132 down=1232 correlation=abababababababababababababababababababababababababababababababab flags=0001 version=0002 padding=0\n",
        ),
        (
            "v1 ffffffff004010010000000104d004d000010101cdcdcdcdcdcdcdcdcdcdcdcdcdcdcdcdcdcdcdcdcdcdcdcdcdcdcdcdcdcdcdcd00",
            "v1 ack=4294967295 window=64 marks=0000 syn initial=1 up=1232 down=1232 flags=0001 version=0101 hash=cdcdcdcdcdcdcdcdcdcdcdcdcdcdcdcdcdcdcdcdcdcdcdcdcdcdcdcdcdcdcdcd padding=1\n",
        ),
    ];
    for (line, answer) in rows {
        assert_eq!(rt;
            show(rt.alloc(), line.as_bytes())?.bytes(),
            answer.as_bytes()
        );
    }
    Ok(())
}

#[test]
fn an_opening_of_a_whole_datagram_is_shown(rt: HostRuntime) -> Result<(), Fail> {
    let zeros = vec![in rt.alloc(); b'0'; 2432]?;
    let mut line = Vec::from_slice(rt.alloc(), b"v1 ffffffff004000010000000104d004d0")?;
    line.extend_from_slice(&zeros)?;
    assert_eq!(rt;
        show(rt.alloc(), &line)?.bytes(),
        b"v1 ack=4294967295 window=64 marks=0000 syn initial=1 up=1232 down=1232 padding=1216\n".as_slice()
    );
    Ok(())
}

#[test]
fn packets_of_the_second_layout_are_shown(rt: HostRuntime) -> Result<(), Fail> {
    let rows = [
        ("v2 0010603412000080", "v2 type=0 log=6 aoa=4660\n"),
        (
            "v2 41046001000100e042",
            "v2 type=0 log=6 number=1 part=1 bytes=4142\n",
        ),
        (
            "v2 050860050002c3e0",
            "v2 type=0 log=6 base=5 flags=rrrrmrmmmm\n",
        ),
        ("v2 00000000000000d0", "v2 type=8 log=0 rest=4\n"),
        (
            "v2 0355a107000102e00102c8f00905f401341208000100",
            "v2 type=0 log=10 ack=7 delayed=2 overhead=9 delay=5,500 aoa=4660 number=8 part=1 bytes=-\n",
        ),
    ];
    for (line, answer) in rows {
        assert_eq!(rt;
            show(rt.alloc(), line.as_bytes())?.bytes(),
            answer.as_bytes()
        );
    }
    Ok(())
}

#[test]
fn faults_of_datagrams_are_shown(rt: HostRuntime) -> Result<(), Fail> {
    let rows = [
        ("v1 -", "v1 refused Short at 0\n"),
        (
            "v1 ffffffff004010010000000104d004d000010101abababababababababababababababababababababababababababababab",
            "v1 refused Short at 20\n",
        ),
        ("v1 000000010040000400014300", "v1 refused BadState at 10\n"),
        ("v1 00000001004000040801", "v1 refused VectorTooLong at 8\n"),
        ("v1 0000000000400004ffff", "v1 refused VectorTooLong at 8\n"),
        ("v2 00096000000000e0", "v2 refused AckAndVector at 1\n"),
        ("v2 00106034120000", "v2 refused Short at 0\n"),
        ("v2 00046000000000a0", "v2 refused Short at 5\n"),
    ];
    for (line, answer) in rows {
        assert_eq!(rt;
            show(rt.alloc(), line.as_bytes())?.bytes(),
            answer.as_bytes()
        );
    }
    Ok(())
}

#[test]
fn streams_are_shown(rt: HostRuntime) -> Result<(), Fail> {
    let rows = [
        ("tunnel 010400", "tunnel more 4\n"),
        ("tunnel 0104000405000780", "tunnel answer hr=80070005\n"),
        (
            "tunnel 001800040700000000000000ffffffffffffffffffffffffffffffff",
            "tunnel create id=7 cookie=ffffffffffffffffffffffffffffffff\n",
        ),
        ("tunnel 0200000402", "tunnel data bytes=- then 1\n"),
        ("tunnel 03", "tunnel refused BadAction at 0\n"),
        ("frame 0301003041", "frame channel bytes=30 then 1\n"),
        (
            "frame 0118000700000002000000000102030405060708090a0b0c0d0e0f",
            "frame request id=7 kind=lossy cookie=000102030405060708090a0b0c0d0e0f\n",
        ),
        (
            "frame 0208000700000005000780",
            "frame response id=7 hr=80070005\n",
        ),
    ];
    for (line, answer) in rows {
        assert_eq!(rt;
            show(rt.alloc(), line.as_bytes())?.bytes(),
            answer.as_bytes()
        );
    }
    Ok(())
}

#[test]
fn channel_pdus_are_shown(rt: HostRuntime) -> Result<(), Fail> {
    let rows = [
        (
            "dvc server 500003000000000001000a00",
            "dvc caps version=3 charges=0,0,1,10\n",
        ),
        (
            "dvc server 1c0166696c657300",
            "dvc create id=1 name=files\n",
        ),
        (
            "dvc client 100105000780",
            "dvc answer id=1 status=80070005\n",
        ),
        (
            "dvc server 24010001616263",
            "dvc first id=1 length=256 bytes=616263\n",
        ),
        ("dvc server 700161", "dvc zdata id=1 bytes=61\n"),
        ("dvc client 42ffffffff", "dvc close id=4294967295\n"),
        (
            "dvc server 8000120000000300010001000000010007000000",
            "dvc sync flags=0003 tunnels=1 reliable=7\n",
        ),
        (
            "dvc client 90000100000001000000",
            "dvc syncanswer reliable\n",
        ),
    ];
    for (line, answer) in rows {
        assert_eq!(rt;
            show(rt.alloc(), line.as_bytes())?.bytes(),
            answer.as_bytes()
        );
    }
    Ok(())
}

#[test]
fn faults_of_channel_pdus_are_shown(rt: HostRuntime) -> Result<(), Fail> {
    let text = b"dvc server 30\ndvc server 13\ndvc server 200102616263";
    let answers =
        b"dvc refused Short at 1\ndvc refused BadCbId at 0\ndvc refused LengthTooSmall at 2\n";
    assert_eq!(rt; show(rt.alloc(), text)?.bytes(), answers.as_slice());
    one_output();
    Ok(())
}

#[test]
fn another_line_is_refused(rt: HostRuntime) -> Result<(), Fail> {
    let rows = [
        ("\n", 1),
        ("v1 AB\n", 1),
        ("v1  00\n", 1),
        ("dvc 3001\n", 1),
        ("v1 -\nv1 00\nplay\n\n", 3),
    ];
    for (text, line) in rows {
        match show(rt.alloc(), text.as_bytes()) {
            Err(refusal) => assert_eq!(rt; refusal, ShowRefusal::BadLine { line }),
            Ok(_) => assert!(rt; false, "a line is none of a show file"),
        }
    }
    Ok(())
}
