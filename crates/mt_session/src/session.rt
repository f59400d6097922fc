//! A session: an end, the bytes that wait on both sides of it, and its turns.

ghost use Rattle.std.specs.Prelude.{◌≡◌, ℕ, ◌≤◌, ◌<◌, ◌^◌, ◌++◌, ◌∷◌, [], List, length, not, ◌&&◌, IfOk};
ghost use Rattle.std.specs.Borrow.{sem, Lends};
ghost use Rattle.mt_base.specs.Trace.{Trace};
ghost use Rattle.mt_base.specs.declared.kinds.Role.{Role};
ghost use Rattle.mt_endpoint.specs.Acts.{Act};
ghost use Rattle.mt_outside.specs.Streams.{StreamTold};
ghost use Rattle.mt_outside.specs.Wires.{WireTold};
ghost use Rattle.mt_session.specs.contracts.session.Session.{the_row};
ghost use Rattle.mt_session.specs.Answers.{is_end, outcome};
ghost use Rattle.mt_session.specs.Buffer.{held};
ghost use Rattle.mt_session.specs.Counting.{Faulty, Goes};
ghost use Rattle.mt_session.specs.Leading.{LeadsTo, Turns, before};
ghost use Rattle.mt_session.specs.Lending.{with_end};
ghost use Rattle.mt_session.specs.Live.{seen, First, Live, called};
ghost use Rattle.mt_session.specs.Steps.{Step, entries};
ghost use Rattle.mt_session.specs.Turns.{Over, stage};

use crate::buffer::Buffer;
use crate::datagrams::{send_all, take_all};
use crate::end::End;
use crate::main_stream::{deliver, hear, is_end};
use crate::tally::Tally;
use crate::turned::Turned;
use mt_base::NoMemory;
use mt_outside::{Got, Stream, Wire};
use std::alloc::Global;

/// An end with the bytes that were read and not taken, those that it gave and the stream has not taken, and counts.
#[derive(Drop)]
pub struct Session<E> {
    pub end: E,
    pub(crate) input: Buffer,
    pub(crate) output: Buffer,
    pub(crate) tally: Tally,
}

/// What a turn answers, where no device failed.
fn outcome(got: Option<Got>, expects_end: bool, moves: bool) -> Turned
    ensures { result ≡ outcome (is_end got && not expects_end) moves }
{
    if is_end(got) && !expects_end {
        return Turned::Ended;
    }
    if moves { Turned::Went } else { Turned::Idle }
}

impl<E: End + Drop> Session<E> {
    /// A session of this end, which has made no calls but some of its own.
    pub fn new(alloc: Global, end: E) -> Result<Session<E>, NoMemory>
        ensures live { IfOk result (λ session. (role : Role) (acts : Trace Act) (stream : StreamTold) (wire : WireTold) → E.stands end role (entries (called acts)) →
            Live (E.stands session.end) (seen session stream wire [] 0) (record { role = role; stream = stream; wire = wire }) (called acts)) }
    {
        let input = Buffer::new(alloc)?;
        let output = Buffer::new(alloc)?;
        Ok(Session {
            end,
            input,
            output,
            tally: Tally::new(),
        })
    }

    /// The end, lent.
    pub fn end(&mut self) -> &mut E
        ensures* writes_back { sem 𝓛 (Lends (the_row E.row) E.row self.entry result (with_end self.old)) }
        ensures value { result.now ≡ self.old.end }
    {
        &mut self.end
    }

    /// The turns in a row, up to now, that read nothing, took nothing and wrote nothing on the main stream.
    pub fn idle(&self) -> u64
        ensures { result ≡ (self.now.tally).idle }
    {
        self.tally.idle
    }

    /// How many bytes were read.
    pub fn bytes_read(&self) -> u64
        ensures { result ≡ (self.now.tally).read }
    {
        self.tally.read
    }

    /// How many bytes were written.
    pub fn bytes_written(&self) -> u64
        ensures { result ≡ (self.now.tally).written }
    {
        self.tally.written
    }

    /// How many datagrams were taken.
    pub fn datagrams_taken(&self) -> u64
        ensures { result ≡ (self.now.tally).taken }
    {
        self.tally.taken
    }

    /// How many bytes the end gave that the stream has not taken.
    pub fn unwritten(&self) -> usize
        ensures { result ≡ length (held self.now.output) }
    {
        self.output.len()
    }

    /// One turn at this moment, in milliseconds. Where no byte of an earlier read waits, the stream is read once, of
    /// 65,536 bytes at most; the bytes that wait are offered to the end, and what it doesn't take is kept. Up to 64
    /// datagrams are taken from the wire, and each is given to the end for its reliable link; where none came, an
    /// empty one, if the link is there. Up to 64 datagrams of the link are sent. Then what the end has for the
    /// stream is written once, behind what an earlier write left; what that leaves waits, with the rest of 65,536
    /// bytes. A device that fails ends the turn; a datagram that the wire failed to send is lost. Where the caller
    /// expects the end of the stream, that counts as nothing read.
    pub fn turn<S: Stream, W: Wire>(
        &mut self,
        now: u64,
        expects_end: bool,
        main: &mut S,
        wire: &mut W,
    ) -> Turned
        requires moment { now < 2 ^ 62 }
        ensures main_stays { S.stays main.old main.new }
        ensures wire_stays { W.stays wire.old wire.new }
        ensures main_never_falls { S.faults main.old ≤ S.faults main.new }
        ensures wire_never_falls { W.faults wire.old ≤ W.faults wire.new }
        ensures faulty { Faulty result (S.faults main.old) (S.faults main.new) (W.faults wire.old) (W.faults wire.new) }
        ensures goes { Goes result self.old.tally self.new.tally }
        ensures steps { (first : First) (moments : List ℕ) (moment : ℕ) (s : Trace Step) →
            Live (E.stands self.old.end) (seen self.old (S.told main.old) (W.told wire.old) moments moment) first s →
            stage s ≡ Over →
            LeadsTo (E.stands self.new.end) (seen self.new (S.told main.new) (W.told wire.new) (moments ++ now ∷ []) now) first (λ later. (before later ≡ s) × Turns expects_end result later) }
    {
        let Ok(got) = hear(&mut self.end, main, &mut self.input, &mut self.tally) else {
            return Turned::Failed;
        };
        let Ok(()) = take_all(&mut self.end, now, wire, &mut self.tally) else {
            return Turned::Failed;
        };
        let Ok(()) = send_all(&mut self.end, now, wire) else {
            return Turned::Failed;
        };
        let Ok(()) = deliver(&mut self.end, main, &mut self.output, &mut self.tally) else {
            return Turned::Failed;
        };
        outcome(got, expects_end, self.tally.moves)
    }
}
