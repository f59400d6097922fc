//! The parts of a turn on the main stream.

ghost use Rattle.std.specs.Prelude.{◌≡◌, ℕ, ◌+◌, ◌-◌, ◌≤◌, ◌++◌, ◌∷◌, [], List, Option, length, take, drop, IfOk, OnOk, OnErr};
ghost use Rattle.mt_base.specs.declared.kinds.Role.{Role};
ghost use Rattle.mt_base.specs.Trace.{Trace, ◌▷◌};
ghost use Rattle.mt_endpoint.specs.Acts.{Act};
ghost use Rattle.end_calls.specs.Calls.{Entry, MainIn, MainOut};
ghost use Rattle.mt_outside.specs.Faults.{Rose};
ghost use Rattle.mt_session.specs.Steps.{Step, begun};
ghost use Rattle.mt_session.specs.Turns.{Over, Filling, IsAsked, IsWritten, stage};
ghost use Rattle.mt_session.specs.Buffer.{held};
ghost use Rattle.mt_session.specs.Live.{Seen, First, Live};
ghost use Rattle.mt_session.specs.Answers.{answer_of, is_end, kept_by, after_read, after_write, read_tally, written_tally, without};
ghost use Rattle.mt_session.specs.Leading.{LeadsTo, Hears, SameTurn, EndsTurn};
ghost use Rattle.mt_session.specs.Counting.{Grew, GoesOn};
ghost use Rattle.mt_session.specs.declared.tally.Tally as counts;

use crate::buffer::Buffer;
use crate::end::End;
use crate::tally::Tally;
use mt_outside::{Failed, Got, Stream};

/// Reads the stream once, where no byte waits.
fn read_once<S: Stream>(
    main: &mut S,
    input: &mut Buffer,
    tally: &mut Tally,
) -> Result<Option<Got>, Failed>
    ensures stays { S.stays main.old main.new }
    ensures never_falls { S.faults main.old ≤ S.faults main.new }
    ensures cause { OnErr result (Rose (S.faults main.old) (S.faults main.new)) }
    ensures counts { OnOk result (S.faults main.new ≡ S.faults main.old) }
    ensures asked { IfOk result (λ got. IsAsked (held input.old) (answer_of got (held input.new))) }
    ensures kept { IfOk result (λ got. held input.new ≡ kept_by (answer_of got (held input.new)) (held input.old)) }
    ensures tells { IfOk result (λ got. S.told main.new ≡ after_read (answer_of got (held input.new)) (S.told main.old)) }
    ensures tally { IfOk result (λ got. tally.new ≡ read_tally (answer_of got (held input.new)) tally.old) }
    ensures same { OnErr result ((S.told main.new ≡ S.told main.old) × (held input.new ≡ held input.old) × (tally.new ≡ tally.old)) }
{
    if !input.is_empty() {
        return Ok(None);
    }
    input.clear();
    match main.read(&mut input.room) {
        Ok(Got::Bytes(count)) => {
            input.end = count;
            tally.note_read(count);
            Ok(Some(Got::Bytes(count)))
        }
        Ok(got) => Ok(Some(got)),
        Err(failed) => Err(failed),
    }
}

/// Whether the stream has ended.
pub(crate) fn is_end(got: Option<Got>) -> bool
    ensures { result ≡ is_end got }
{
    matches!(got, Some(Got::End))
}

/// Offers the bytes that wait to the end; what it doesn't take is kept.
fn offer<E: End>(end: &mut E, input: &mut Buffer) -> usize
    ensures bound { result ≤ length (held input.old) }
    ensures kept { held input.new ≡ drop result (held input.old) }
    ensures adds { (role : Role) (t : Trace Entry) → E.stands end.old role t → (load : ℕ) × (lack : Option (ℕ × Trace Act)) × E.stands end.new role (t ▷ MainIn (held input.old) result load lack) }
{
    let count = end.main_in(input.bytes());
    input.pass(count);
    count
}

/// Begins a turn: reads the stream, where no byte waits, and offers the end the bytes that wait.
pub(crate) fn hear<E: End, S: Stream>(
    end: &mut E,
    main: &mut S,
    input: &mut Buffer,
    tally: &mut Tally,
) -> Result<Option<Got>, Failed>
    ensures stays { S.stays main.old main.new }
    ensures never_falls { S.faults main.old ≤ S.faults main.new }
    ensures cause { OnErr result (Rose (S.faults main.old) (S.faults main.new)) }
    ensures counts { OnOk result (S.faults main.new ≡ S.faults main.old) }
    ensures grew { OnOk result (Grew (begun tally.old) tally.new) }
    ensures steps { (first : First) (seen : Seen) (s : Trace Step) (now : ℕ) →
        Live (E.stands end.old) (record seen { kept = held input.old; tally = tally.old; stream = S.told main.old }) first s →
        stage s ≡ Over →
        LeadsTo (E.stands end.new) (record seen { kept = held input.new; tally = tally.new; stream = S.told main.new; moments = seen.moments ++ now ∷ []; now = now }) first (Hears result s) }
{
    tally.begin();
    match read_once(main, input, tally) {
        Ok(got) => {
            offer(end, input);
            Ok(got)
        }
        Err(failed) => Err(failed),
    }
}

/// Lets the end fill the room from place `at` on, and answers how many bytes came.
fn pour<E: End>(end: &mut E, room: &mut [u8], at: usize) -> usize
    requires { at ≤ length room.old }
    ensures bound { at + result ≤ length room.old }
    ensures adds { (bytes : List ℕ) × (length bytes ≤ length room.old - at) × (take (at + result) room.new ≡ take at room.old ++ bytes)
        × ((role : Role) (t : Trace Entry) → E.stands end.old role t → E.stands end.new role (t ▷ MainOut (length room.old - at) bytes)) }
{
    end.main_out(&mut room[at..])
}

/// Fills the rest of the write buffer from the end.
fn fill<E: End>(end: &mut E, output: &mut Buffer)
    ensures { (room : ℕ) × (bytes : List ℕ) × (room + length (held output.old) ≡ 65536) × (length bytes ≤ room) × (held output.new ≡ held output.old ++ bytes)
        × ((role : Role) (t : Trace Entry) → E.stands end.old role t → E.stands end.new role (t ▷ MainOut room bytes)) }
{
    output.move_to_front();
    let at = output.end;
    let count = pour(end, &mut output.room, at);
    output.end = at + count;
}

/// Writes once to the stream, where a byte is there to be written, and ends the turn.
fn write_once<S: Stream>(
    main: &mut S,
    output: &mut Buffer,
    tally: &mut Tally,
) -> Result<Option<usize>, Failed>
    ensures stays { S.stays main.old main.new }
    ensures never_falls { S.faults main.old ≤ S.faults main.new }
    ensures cause { OnErr result (Rose (S.faults main.old) (S.faults main.new)) }
    ensures counts { OnOk result (S.faults main.new ≡ S.faults main.old) }
    ensures asked { IfOk result (λ count. IsWritten (held output.old) count) }
    ensures unwritten { IfOk result (λ count. held output.new ≡ without count (held output.old)) }
    ensures tells { IfOk result (λ count. S.told main.new ≡ after_write (held output.old) count (S.told main.old)) }
    ensures tally { IfOk result (λ count. tally.new ≡ written_tally count tally.old) }
    ensures same { OnErr result ((S.told main.new ≡ S.told main.old) × (held output.new ≡ held output.old) × (tally.new ≡ tally.old)) }
{
    if output.is_empty() {
        tally.end();
        return Ok(None);
    }
    match main.write(output.bytes()) {
        Ok(count) => {
            output.pass(count);
            tally.note_written(count);
            tally.end();
            Ok(Some(count))
        }
        Err(failed) => Err(failed),
    }
}

/// Ends a turn: fills the write buffer from the end, and writes once to the stream, where a byte is there. What the
/// write leaves stays first in the buffer.
pub(crate) fn deliver<E: End, S: Stream>(
    end: &mut E,
    main: &mut S,
    output: &mut Buffer,
    tally: &mut Tally,
) -> Result<(), Failed>
    ensures stays { S.stays main.old main.new }
    ensures never_falls { S.faults main.old ≤ S.faults main.new }
    ensures cause { OnErr result (Rose (S.faults main.old) (S.faults main.new)) }
    ensures counts { OnOk result (S.faults main.new ≡ S.faults main.old) }
    ensures goes { OnOk result ((old : counts.Tally) → Grew (begun old) tally.old → GoesOn old tally.new) }
    ensures steps { (first : First) (seen : Seen) (s : Trace Step) →
        Live (E.stands end.old) (record seen { unwritten = held output.old; tally = tally.old; stream = S.told main.old }) first s →
        stage s ≡ Filling →
        LeadsTo (E.stands end.new) (record seen { unwritten = held output.new; tally = tally.new; stream = S.told main.new }) first (λ later. OnOk result (EndsTurn later) × SameTurn s later) }
{
    fill(end, output);
    match write_once(main, output, tally) {
        Ok(_) => Ok(()),
        Err(failed) => Err(failed),
    }
}
