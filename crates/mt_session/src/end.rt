//! One end of a session, as a turn calls it.

ghost use Rattle.std.specs.Prelude.{◌≡◌, ◌≤◌, ◌<◌, ◌^◌, ℕ, Bool, true, false, None, Option, length, take, option_map, IfSome};
ghost use Rattle.mt_base.specs.Trace.{Trace, ◌▷◌};
ghost use Rattle.mt_base.specs.declared.kinds.Role.{Role};
ghost use Rattle.mt_endpoint.specs.Acts.{Act};
ghost use Rattle.mt_endpoint.specs.Tunnels.{is_attached};
ghost use Rattle.end_calls.specs.Calls.{Entry, MainIn, MainOut, acts};
ghost use Rattle.end_calls.specs.Law.{EndTrace};
ghost use Rattle.mt_session.specs.Steps.{Reading, Poll, wired_in, wired_out};

use carrier::Took;
use mt_base::Kind;

/// The calls of an end that a turn makes. `stands` says for which lists of calls an end of a role stands; such a
/// list keeps the law of an end's calls. Each call adds its entry to every list that the end stood for; what the
/// end read, or how it found a link, stands in the entry.
pub trait End {
    ghost stands: { Self → Role → Trace Entry → Type 0 };

    /// Reads bytes of the main stream, and gives how many of them it took.
    fn main_in(&mut self, bytes: &[u8]) -> usize
        ensures bound { result ≤ length bytes.now }
        ensures adds { (role : Role) (t : Trace Entry) → stands self.old role t → (load : ℕ) × (lack : Option (ℕ × Trace Act)) × stands self.new role (t ▷ MainIn bytes.now result load lack) };

    /// Moves bytes of the main stream that wait to the front of `out`, and gives their number.
    fn main_out(&mut self, out: &mut [u8]) -> usize
        ensures bound { result ≤ length out.old }
        ensures adds { (role : Role) (t : Trace Entry) → stands self.old role t → stands self.new role (t ▷ MainOut (length out.old) (take result out.new)) };

    /// Hands a datagram that came at this moment to the link of this kind, and reads what the links have.
    fn wire_in(&mut self, link: Kind, now: u64, datagram: &[u8]) -> Took
        requires moment { now < 2 ^ 62 }
        ensures adds { (role : Role) (t : Trace Entry) → stands self.old role t → (reading : Reading) × stands self.new role (t ▷ wired_in link now datagram.now result reading) };

    /// Writes the datagram that is due at this moment on the link of this kind to the front of `out`, and gives its
    /// length; `None` where none is due, or there is no link, and then nothing changes.
    fn wire_out(&mut self, link: Kind, now: u64, out: &mut [u8; 1232]) -> Option<usize>
        requires moment { now < 2 ^ 62 }
        ensures bound { IfSome result (λ n. n ≤ 1232) }
        ensures adds { (role : Role) (t : Trace Entry) → stands self.old role t → is_attached link (acts role t) ≡ true → (poll : Poll) × stands self.new role (t ▷ wired_out link now (option_map (λ n. take n out.new) result) poll) }
        ensures none { (role : Role) (t : Trace Entry) → stands self.old role t → is_attached link (acts role t) ≡ false → (result ≡ None) × (self.new ≡ self.old) };

    /// Whether the tunnel of this kind has its link.
    fn attached(&self, link: Kind) -> bool
        ensures { (role : Role) (t : Trace Entry) → stands self.now role t → result ≡ is_attached link (acts role t) };

    ghost lawful: { (e : Self) (role : Role) (t : Trace Entry) → stands e role t → EndTrace role t };
}
