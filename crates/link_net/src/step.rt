//! Calls of a link, each with the answer that is expected.

ghost use Rattle.std.specs.Prelude.{◌<◌, ◌^◌};

use carrier::{Carrier, GiveRefusal, LinkState, Reason, Took};

/// The last moment at which a link is polled.
const LAST: u64 = 1_000_000_000;

/// What is done with an end of a link, and how it answers. Moments are in milliseconds.
#[derive(Clone, Copy)]
pub enum Step<'a> {
    /// At this moment this datagram comes, and is used.
    Uses(u32, &'a [u8]),
    /// At this moment this datagram comes, and is ignored for this reason.
    Ignores(u32, &'a [u8], Reason),
    /// At this moment a datagram of 1,232 bytes comes that begins so and goes on with zeros, and is
    /// used.
    UsesFilled(u32, &'a [u8]),
    /// At this moment such a datagram comes, and is ignored for this reason.
    IgnoresFilled(u32, &'a [u8], Reason),
    /// At this moment the end sends just this datagram.
    Sends(u32, &'a [u8]),
    /// At this moment the end sends just such a datagram of 1,232 bytes.
    SendsFilled(u32, &'a [u8]),
    /// At this moment the end sends so many datagrams, each of so many bytes.
    SendsMany(u32, usize, usize),
    /// At this moment the end sends a datagram of so many bytes at most.
    SendsWithin(u32, usize),
    /// At this moment the end sends a datagram.
    SendsOne(u32),
    /// At this moment the end sends nothing.
    Silent(u32),
    /// At each of these moments, and not before, the end sends one datagram.
    Expires(&'a [u32]),
    /// So many times something is due, and the end does it at that moment.
    DoesWhatIsDue(usize),
    /// At this moment, and not before, the end closes after so many expiries.
    Closes(u32, u32),
    /// So many times the end takes these bytes to be sent.
    Gives(usize, &'a [u8]),
    /// The end takes none of these bytes, for this reason.
    Refuses(&'a [u8], GiveRefusal),
    /// Just these bytes, 4,096 at most, can be pulled.
    Pulls(&'a [u8]),
    /// So many bytes, 1,232 at most, are pulled.
    PullsMany(usize),
    /// This is the next moment at which something is due.
    Due(u64),
    /// Nothing is due.
    NotDue,
    /// So many bytes are not settled.
    Queued(usize),
    /// The link is this.
    Is(LinkState),
}

impl Step<'_> {
    /// Whether the end answers so.
    fn holds<C: Carrier>(&self, link: &mut C) -> bool {
        match *self {
            Step::Uses(at, datagram) => link.input(u64::from(at), datagram) == Took::Used,
            Step::Ignores(at, datagram, reason) => {
                link.input(u64::from(at), datagram) == Took::Ignored(reason)
            }
            Step::UsesFilled(at, front) => {
                link.input(u64::from(at), &filled(front)) == Took::Used
            }
            Step::IgnoresFilled(at, front, reason) => {
                link.input(u64::from(at), &filled(front)) == Took::Ignored(reason)
            }
            Step::Sends(at, datagram) => sends(link, u64::from(at), datagram),
            Step::SendsFilled(at, front) => sends_filled(link, u64::from(at), front),
            Step::SendsMany(at, count, length) => sends_many(link, u64::from(at), count, length),
            Step::SendsWithin(at, most) => sends_within(link, u64::from(at), most),
            Step::SendsOne(at) => sent_length(link, u64::from(at)).is_some(),
            Step::Silent(at) => is_silent(link, u64::from(at)),
            Step::Expires(moments) => moments.iter().all(|at| expires(link, *at)),
            Step::DoesWhatIsDue(times) => does_what_is_due(link, times),
            Step::Closes(at, expiries) => closes(link, at, expiries),
            Step::Gives(times, bytes) => gives(link, times, bytes),
            Step::Refuses(bytes, refusal) => link.give(bytes) == Err(refusal),
            Step::Pulls(bytes) => pulls(link, bytes),
            Step::PullsMany(count) => link.pull(&mut [0; 1232]) == count,
            Step::Due(at) => link.next_due() == Some(at),
            Step::NotDue => link.next_due().is_none(),
            Step::Queued(count) => link.queued() == count,
            Step::Is(state) => link.state() == state,
        }
    }
}

/// Goes through these steps up to the first that does not hold; `Err` has its place.
pub fn play<C: Carrier>(link: &mut C, steps: &[Step]) -> Result<(), usize> {
    for (place, step) in steps.iter().enumerate() {
        if !step.holds(link) {
            return Err(place);
        }
    }
    Ok(())
}

/// What is done with two ends, and how they answer.
#[derive(Clone, Copy)]
pub enum Turn<'a> {
    /// This step is taken at the near end.
    Near(Step<'a>),
    /// This step is taken at the far end.
    Far(Step<'a>),
    /// What the near end sends at this moment comes to the far one at once, and is used.
    There(u32),
    /// What the far end sends at this moment comes to the near one at once, and is used.
    Back(u32),
}

impl Turn<'_> {
    /// Whether the ends answer so.
    fn holds<C: Carrier>(&self, near: &mut C, far: &mut C) -> bool {
        match self {
            Turn::Near(step) => step.holds(near),
            Turn::Far(step) => step.holds(far),
            Turn::There(at) => carries(near, far, u64::from(*at)),
            Turn::Back(at) => carries(far, near, u64::from(*at)),
        }
    }
}

/// Goes through these turns up to the first that does not hold; `Err` has its place.
pub fn play_both<C: Carrier>(near: &mut C, far: &mut C, turns: &[Turn]) -> Result<(), usize> {
    for (place, turn) in turns.iter().enumerate() {
        if !turn.holds(near, far) {
            return Err(place);
        }
    }
    Ok(())
}

/// The length of the datagram that the link sends at this moment.
pub fn sent_length<C: Carrier>(link: &mut C, now: u64) -> Option<usize>
    requires { now < 2 ^ 62 }
{
    link.poll(now, &mut [0; 1232])
}

/// Whether the link sends nothing at this moment.
pub fn is_silent<C: Carrier>(link: &mut C, now: u64) -> bool
    requires { now < 2 ^ 62 }
{
    sent_length(link, now).is_none()
}

/// Whether the link sends just this datagram at this moment.
pub fn sends<C: Carrier>(link: &mut C, now: u64, datagram: &[u8]) -> bool
    requires { now < 2 ^ 62 }
{
    let mut out = [0; 1232];
    match link.poll(now, &mut out) {
        Some(length) => &out[..length] == datagram,
        None => false,
    }
}

/// A datagram of 1,232 bytes that begins so and goes on with zeros.
pub fn filled(front: &[u8]) -> [u8; 1232] {
    let mut datagram = [0; 1232];
    for (place, byte) in datagram.iter_mut().zip(front) {
        *place = *byte;
    }
    datagram
}

/// Whether the link sends just a datagram of 1,232 bytes that begins so and goes on with zeros.
fn sends_filled<C: Carrier>(link: &mut C, now: u64, front: &[u8]) -> bool
    requires { now < 2 ^ 62 }
{
    let mut out = [0xaa; 1232];
    link.poll(now, &mut out) == Some(1232) && out == filled(front)
}

/// Whether the link sends so many datagrams at this moment, each of so many bytes.
fn sends_many<C: Carrier>(link: &mut C, now: u64, count: usize, length: usize) -> bool
    requires { now < 2 ^ 62 }
{
    for _datagram in 0..count {
        if sent_length(link, now) != Some(length) {
            return false;
        }
    }
    true
}

/// Whether the link sends a datagram of so many bytes at most at this moment.
fn sends_within<C: Carrier>(link: &mut C, now: u64, most: usize) -> bool
    requires { now < 2 ^ 62 }
{
    match sent_length(link, now) {
        Some(length) => length <= most,
        None => false,
    }
}

/// Whether something is due so many times, where the link is polled at each of these moments.
fn does_what_is_due<C: Carrier>(link: &mut C, times: usize) -> bool {
    for _time in 0..times {
        match link.next_due() {
            Some(moment) => sent_length(link, moment.min(LAST)),
            None => return false,
        };
    }
    true
}

/// Whether what one link sends at this moment is used by the other.
pub fn carries<C: Carrier>(from: &mut C, to: &mut C, now: u64) -> bool
    requires { now < 2 ^ 62 }
{
    let mut out = [0; 1232];
    match from.poll(now, &mut out) {
        Some(length) => to.input(now, &out[..length]) == Took::Used,
        None => false,
    }
}

/// Whether the link sends one datagram at this moment and not before, and knows the moment.
fn expires<C: Carrier>(link: &mut C, at: u32) -> bool {
    let moment = u64::from(at);
    is_silent_until(link, moment) && sent_length(link, moment).is_some() && is_silent(link, moment)
}

/// Whether the link closes at this moment after so many expiries and not before, and knows the
/// moment.
fn closes<C: Carrier>(link: &mut C, at: u32, expiries: u32) -> bool {
    let moment = u64::from(at);
    is_silent_until(link, moment)
        && !is_closed(link)
        && is_silent(link, moment)
        && link.state() == LinkState::Closed { expiries }
}

/// Whether the link has this moment as the next one, and does nothing before it.
fn is_silent_until<C: Carrier>(link: &mut C, moment: u64) -> bool
    requires { moment < 2 ^ 62 }
{
    link.next_due() == Some(moment)
        && is_silent(link, moment.saturating_sub(1))
        && link.next_due() == Some(moment)
}

/// Whether the link is closed.
fn is_closed<C: Carrier>(link: &C) -> bool {
    matches!(link.state(), LinkState::Closed { .. })
}

/// Whether the link takes these bytes so many times.
fn gives<C: Carrier>(link: &mut C, times: usize, bytes: &[u8]) -> bool {
    for _time in 0..times {
        if link.give(bytes).is_err() {
            return false;
        }
    }
    true
}

/// Whether just these bytes can be pulled.
fn pulls<C: Carrier>(link: &mut C, bytes: &[u8]) -> bool {
    let mut out = [0; 4_096];
    let count = link.pull(&mut out);
    &out[..count] == bytes && link.pull(&mut out) == 0
}
