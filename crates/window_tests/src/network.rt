use carrier::{LinkState, PerfectCarrier, Reason, Refusal1};
use link_net::{Fate, Step, Way, play, stories};
use mt_base::Short;
use std::test::*;

#[test]
fn perfect_ends_bring_all_bytes_at_once(rt: HostRuntime) -> Result<(), Fail> {
    let [story, ..] = stories();
    let near = PerfectCarrier::new(rt.alloc())?;
    let far = PerfectCarrier::new(rt.alloc())?;
    let ending = story.run(rt.alloc(), near, far)?;
    assert!(rt; ending.is_whole(&story));
    assert_eq!(rt;
        (ending.near.sent, ending.far.sent, ending.moment),
        (130, 70, 10)
    );
    Ok(())
}

#[test]
fn a_way_loses_copies_and_holds_back(rt: HostRuntime) -> Result<(), Fail> {
    let plan = [Fate::Later, Fate::Lose, Fate::Twice, Fate::Pass];
    let mut way = Way::new(rt.alloc(), &plan);
    for number in 0..5 {
        way.carry(&[number], 7)?;
    }
    assert_eq!(rt; (way.sent(), way.next_arrival()), (5, Some(17)));
    let mut came = [9; 5];
    for (place, at) in came.iter_mut().zip([17, 17, 47, 47, 47]) {
        assert_eq!(rt; way.next_arrival(), Some(at));
        let datagram = way.arrived(at).unwrap_or(Vec::new(rt.alloc()));
        *place = datagram.first().copied().unwrap_or(9);
    }
    assert_eq!(rt; came, [2, 3, 0, 2, 4]);
    assert_eq!(rt; way.next_arrival(), None);
    Ok(())
}

#[test]
fn steps_are_gone_through(rt: HostRuntime) -> Result<(), Fail> {
    let mut link = PerfectCarrier::new(rt.alloc())?;
    let short = Reason::First(Refusal1::Short(Short { at: 0, need: 8 }));
    let steps = [
        Step::Gives(1, &[0x41, 0x42]),
        Step::Due(0),
        Step::Queued(2),
        Step::Sends(0, &[0, 0, 0, 0, 0, 0, 0, 0, 0x41, 0x42]),
        Step::Silent(9),
        Step::NotDue,
        Step::Ignores(9, &[1; 7], short),
        Step::Uses(9, &[0, 0, 0, 0, 0, 0, 0, 0, 0x43]),
        Step::Pulls(&[0x43]),
        Step::Gives(2, &[7; 1_000]),
        Step::SendsMany(9, 2, 1_008),
        Step::Is(LinkState::Open),
    ];
    assert_eq!(rt; play(&mut link, &steps), Ok(()));
    assert_eq!(rt; play(&mut link, &[Step::NotDue, Step::Queued(1)]), Err(1));
    Ok(())
}
