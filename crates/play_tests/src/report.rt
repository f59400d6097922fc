use channel_counts::ChannelCounts;
use mt_base::{Kind, Role};
use play_report::{Report, Tally};
use std::test::*;

/// One line of a channel, one of a tunnel, and the main stream's.
const LINES: &[u8] = b"channel 1 files server \
    sent 2 ba7816bf8f01cfea414140de5dae2223b00361a396177a9cb410ff61f20015ad \
    delivered 0 e3b0c44298fc1c149afbf4c8996fb92427ae41e4649b934ca495991b7852b855\n\
    tunnel reliable open server 3 client 2\nmain server 76 client 27\n";

#[test]
fn a_report_is_written_line_by_line(rt: HostRuntime) -> Result<(), Fail> {
    let mut sent = Tally::new();
    sent.add(b"ab");
    sent.add(b"c");
    assert_eq!(rt; sent.count(), 2);
    let mut report = Report::new(rt.alloc());
    report.channel(1, b"files", Role::Server, &sent, &Tally::new())?;
    report.tunnel(Kind::Reliable, b"open", 3, 2)?;
    report.main(76, 27)?;
    assert_eq!(rt; report.into_text().bytes(), LINES);
    Ok(())
}

/// The lines of a channel on which the server sent a message that came.
const COUNTED: &[u8] = b"channel 1 files server \
    sent 1 ba7816bf8f01cfea414140de5dae2223b00361a396177a9cb410ff61f20015ad \
    delivered 1 ba7816bf8f01cfea414140de5dae2223b00361a396177a9cb410ff61f20015ad\n\
    channel 1 files client \
    sent 0 e3b0c44298fc1c149afbf4c8996fb92427ae41e4649b934ca495991b7852b855 \
    delivered 0 e3b0c44298fc1c149afbf4c8996fb92427ae41e4649b934ca495991b7852b855\n";

#[test]
fn what_went_on_a_channel_is_counted(rt: HostRuntime) -> Result<(), Fail> {
    let mut counts = ChannelCounts::new(rt.alloc());
    counts.create(1, b"files")?;
    assert!(rt; counts.has(1) && !counts.has(2));
    assert_eq!(rt; (counts.len(), counts.id_at(0)), (1, Some(1)));
    counts.note_sent(Role::Server, 1, b"abc");
    counts.note_handed(Role::Client, 1, b"abc");
    let mut report = Report::new(rt.alloc());
    counts.report(&mut report)?;
    assert_eq!(rt; report.into_text().bytes(), COUNTED);
    Ok(())
}
