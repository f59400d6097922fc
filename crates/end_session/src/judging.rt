//! A server judges create requests.

ghost use Rattle.std.specs.Prelude.{◌≡◌, ◌||◌, [], not, ◌&&◌, if◌then◌else◌};
ghost use Rattle.mt_base.specs.declared.kinds.Role.TheVariants.{Server};
ghost use Rattle.soft_sync.specs.Exchanges.{set_kind};
ghost use Rattle.mt_endpoint.specs.Acts.{CreateAnswered};
ghost use Rattle.mt_endpoint.specs.Tunnels.{is_opened, link_of};
ghost use Rattle.mt_endpoint.specs.Writing.{create_code, is_full_for};
ghost use Rattle.end_session.specs.Known.{is_live_in};
ghost use Rattle.end_session.specs.Outgoing.{carries, waiting_for};

use crate::hearing_channels::DENIED;
use crate::outgoing::Outgoing;
use crate::session::Session;
use crate::tunnel::Tunnel;
use mt_base::{Kind, Role};
use soft_sync::Paths;
use tunnel_cookies::Verdict;
use tunnel_pdus::TunnelPdu;

/// The number of a link in the table of issued requests.
fn link_of(kind: Kind) -> u32
    ensures { result ≡ link_of kind }
{
    match kind {
        Kind::Reliable => 0,
        Kind::Lossy => 1,
    }
}

/// The code of the answer to a create request (MS-RDPEMT section 2.2.2.2).
fn create_code(verdict: Verdict) -> u32
    ensures { result ≡ create_code verdict }
{
    match verdict {
        Verdict::Opened => 0,
        Verdict::Again => 0,
        Verdict::Unknown => DENIED,
        Verdict::WrongCookie => DENIED,
        Verdict::WrongKind => DENIED,
        Verdict::Spent { .. } => DENIED,
    }
}

/// Whether a verdict opens the tunnel.
fn is_opened(verdict: Verdict) -> bool
    ensures { result ≡ is_opened verdict }
{
    match verdict {
        Verdict::Opened => true,
        Verdict::Again => false,
        Verdict::Unknown => false,
        Verdict::WrongCookie => false,
        Verdict::WrongKind => false,
        Verdict::Spent { .. } => false,
    }
}

/// Whether a link has no room for an answer: a reliable one keeps room for such PDUs.
fn is_full_for(kind: Kind, is_full: bool) -> bool
    ensures { result ≡ is_full_for kind is_full }
{
    match kind {
        Kind::Reliable => false,
        Kind::Lossy => is_full,
    }
}

/// Writes the answer to a create request, unless the link gets none.
fn answer(outgoing: &mut Outgoing, kind: Kind, hr: u32, gets_none: bool)
    requires { waiting_for kind outgoing.old ≡ [] }
    ensures { outgoing.new ≡ (if gets_none then outgoing.old else carries kind (CreateAnswered hr) outgoing.old) }
{
    if !gets_none {
        outgoing.put_tunnel(kind, &TunnelPdu::CreateResponse { hr });
    }
}

/// The tunnel opens, where the verdict is so.
fn open_by(verdict: Verdict, kind: Kind, tunnel: &mut Tunnel, paths: &mut Paths)
    ensures tunnel { tunnel.new ≡ record tunnel.old { was_opened = (tunnel.old).was_opened || is_opened verdict } }
    ensures paths { paths.new ≡ record paths.old { opened = set_kind kind (is_live_in Server tunnel.new) (paths.old).opened } }
{
    if is_opened(verdict) {
        tunnel.set_opened();
    }
    paths.set_open(kind, tunnel.is_live(Role::Server));
}

impl Session {
    ghost use Rattle.std.specs.Prelude.{◌≡◌, ℕ, is_some};
    ghost use Rattle.mt_base.specs.Trace.{Trace, ◌▷◌};
    ghost use Rattle.tunnel_cookies.specs.Entries.{entry_of};
    ghost use Rattle.mt_endpoint.specs.Acts.{Act, Judges};
    ghost use Rattle.end_calls.specs.Streams.{verdict_by};
    ghost use Rattle.end_session.specs.OfKind.{tunnel_of};
    ghost use Rattle.end_session.specs.Pulling.{WroteFor};
    ghost use Rattle.end_session.specs.Standing.{Gone, Stands};

    /// A server pulled a create request, and judges it by the requests that it issued (MS-RDPEMT section
    /// 3.2.5.1): the act `Judges`. The tunnel opens where the verdict is so. The answer is written for the
    /// link, unless that is silent, or is a lossy one that is full.
    pub(crate) fn judge(&mut self, kind: Kind, id: u32, cookie: &[u8], is_full: bool) -> Verdict
        requires server { (self.old).role ≡ Server }
        requires waits { waiting_for kind (self.old).outgoing ≡ [] }
        ensures stands { (t : Trace Act) (gone : Gone) (at : ℕ) → Stands self.old t gone → Stands self.new (t ▷ Judges kind at id cookie.now result is_full) gone }
        ensures verdict { result ≡ verdict_by kind cookie.now (entry_of id (self.old).issued) }
        ensures wrote { WroteFor kind (self.old).outgoing (self.new).outgoing }
        ensures main { ((self.new).outgoing).main ≡ ((self.old).outgoing).main }
        ensures owed { (self.new).owed ≡ (self.old).owed }
        ensures same { ((self.new).role ≡ (self.old).role) × ((self.new).broken ≡ (self.old).broken) }
    {
        let gets_none = self.gets_no_answer(kind, is_full);
        let verdict = self.issued.open(link_of(kind), kind, id, cookie);
        answer(&mut self.outgoing, kind, create_code(verdict), gets_none);
        match kind {
            Kind::Reliable => open_by(verdict, kind, &mut self.reliable, &mut self.paths),
            Kind::Lossy => open_by(verdict, kind, &mut self.lossy, &mut self.paths),
        }
        verdict
    }

    /// Whether a link gets no answer to its create request: it is silent, or a lossy one that is full.
    fn gets_no_answer(&self, kind: Kind, is_full: bool) -> bool
        ensures { result ≡ (is_some (tunnel_of kind self.now).silence || is_full_for kind is_full) }
    {
        self.tunnel_of(kind).is_silent() || is_full_for(kind, is_full)
    }
}
