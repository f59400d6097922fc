//! What a machine asks of the layout of its datagrams.

ghost use Rattle.std.specs.Prelude.{IfOk, ◌≡◌, ◌+◌, ◌++◌, length, take, drop, ◌≤◌, ◌<◌, ◌^◌, ℕ, Bool};
ghost use Rattle.mt_base.specs.Trace.{Trace};
ghost use Rattle.mt_windows.specs.Sending.{Act};
ghost use Rattle.mt_windows.specs.SendingView.{Sends, queued_of};
ghost use Rattle.mt_windows.specs.ArrivedView.{Receives};
ghost use Rattle.mt_windows.specs.NotedView.{Notes};
ghost use Rattle.carrier.specs.Layout.{Received};
ghost use Rattle.carrier.specs.Sending.{hears_telling, settles};
ghost use Rattle.link_machine.specs.declared.told.Told.{Told as CodeTold};
ghost use Rattle.link_machine.specs.ContentsView.{reading_of, IsFit};
ghost use Rattle.link_machine.specs.WireLaw.{IsWire};
ghost use Rattle.link_machine.specs.Wire.{Wire, layout_of, telling_in};

use crate::contents::Contents;
use crate::numbers::Numbers;
use crate::told::Told;
use carrier::{Reason, WITH_TELLING};
use mt_base::Width;
use mt_windows::{DATAGRAM, PART, ReceiveWindow, Seen, SendWindow};

/// What was received, as far as it is told.
#[derive(Drop)]
pub struct Got<'a, W: Width> {
    pub window: &'a ReceiveWindow<W>,
    pub seen: &'a Seen<W>,
    pub peer: u64,
    pub floor: u64,
}

/// The layout of a link's datagrams.
pub trait WireLayout {
    type Width: Width;

    ghost wire: { Wire };

    ghost TELLS_PARTS: { Bool };

    const TELLS_PARTS: bool;

    ghost can_tell: { CodeTold → Type 0 };

    /// What a datagram shows, or why it is refused.
    fn read<'a>(datagram: &'a [u8], scratch: &'a mut [u8; 1232]) -> Result<Contents<'a>, Reason>
        requires { length datagram.now ≤ DATAGRAM }
        ensures shows { wire.read datagram.now ≡ reading_of wire.flags result }
        ensures fit { IfOk result (λ c. IsFit can_tell Self.Width.MODULUS c) };

    /// Takes as received what a datagram tells so; whether a part became settled.
    fn settle(window: &mut SendWindow<Self::Width>, told: Told<'_>) -> bool
        requires { can_tell told }
        ensures settles { (wait delay own peer : ℕ) (acts : Trace Act) →
            Sends window.old own acts →
            let layout = layout_of wire wait delay own peer in
            result ≡ settles layout acts (hears_telling layout acts (telling_in wire.flags told.entry)) }
        ensures sends { (wait delay own peer : ℕ) (acts : Trace Act) → Sends window.old own acts →
            Sends window.new own (hears_telling (layout_of wire wait delay own peer) acts (telling_in wire.flags told.entry)) }
        ensures queued { queued_of window.new ≤ queued_of window.old };

    /// Writes a datagram up to the bytes of its part: what was received, where it tells so, the floor,
    /// and the numbers of the part that it carries. Gives its length.
    fn head(
        got: &Got<'_, Self::Width>,
        tells: bool,
        above: Option<u64>,
        numbers: Option<Numbers>,
        out: &mut [u8; 1232],
    ) -> usize
        requires peer { 1 ≤ got.now.peer }
        ensures bound { result + PART ≤ WITH_TELLING }
        ensures text { (r : Received) (n : ℕ) →
            Receives got.now.window.now got.now.peer r.parts n → Notes got.now.seen.now r.seen →
            let text = wire.head (wire.told got.now.peer r got.now.floor) tells above numbers in
            (result ≡ length text) × (out.new ≡ text ++ drop result out.old) }
        ensures rest { drop result out.new ≡ drop result out.old };

    /// Finishes the text of this length at the front of a buffer, and gives its length then.
    fn finish(out: &mut [u8; 1232], length: usize) -> usize
        requires { length ≤ WITH_TELLING }
        ensures bound { result ≤ DATAGRAM }
        ensures whole { length ≤ result }
        ensures text { take result out.new ≡ wire.finished (take length out.old) }
        ensures rest { drop result out.new ≡ drop result out.old };

    /// It is the layout of a link: a text is read back, tells only what was received, and leaves room
    /// for a part.
    fn is_wire()
        ensures { IsWire wire };

    ghost tells_parts_is: { TELLS_PARTS ≡ wire.tells_parts };

    ghost modulus_is: { wire.modulus ≡ Self.Width.MODULUS };
}

/// Whether parts are told, or else transmissions.
pub fn tells_parts<L: WireLayout>() -> bool
    ensures { result ≡ L.wire.tells_parts }
{
    L::TELLS_PARTS
}
