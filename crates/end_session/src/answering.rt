//! A client answers Soft-Sync requests.

ghost use Rattle.std.specs.Prelude.{◌≡◌, ◌<◌, ◌&&◌, ◌||◌, length, not};
ghost use Rattle.mt_base.specs.declared.kinds.Kind.TheVariants as kinds;
ghost use Rattle.mt_base.specs.declared.kinds.Role.TheVariants.{Client};
ghost use Rattle.soft_sync.specs.Exchanges.{giving, with_answer};
ghost use Rattle.end_session.specs.AnswerDue.{naming_if};
ghost use Rattle.end_session.specs.Known.{is_live_in, is_settled_in};

use crate::session::Session;
use crate::spelled::Spelled;
use crate::tunnel::Tunnel;
use mt_base::{Kind, Role};
use soft_sync::{Kinds, Paths};

/// Whether it is known what became of a client's tunnel, where its kind is named.
fn is_known(is_named: bool, tunnel: &Tunnel) -> bool
    ensures { result ≡ (not is_named || is_settled_in Client tunnel.now) }
{
    !is_named || tunnel.is_settled(Role::Client)
}

/// Whether a client's tunnel carries whose kind is named.
fn carries(is_named: bool, tunnel: &Tunnel) -> bool
    ensures { result ≡ (is_named && is_live_in Client tunnel.now) }
{
    is_named && tunnel.is_live(Role::Client)
}

/// The answer to the request of this number names this kind too, or doesn't.
fn respond(paths: &mut Paths, number: u32, kind: Kind, is_named: bool)
    requires { number < length (paths.old).read }
    ensures words { paths.new ≡ record paths.old { read = naming_if is_named kind number (paths.old).read } }
    ensures count { length (paths.new).read ≡ length (paths.old).read }
{
    if is_named {
        paths.respond(number, kind);
    }
}

/// The request of this number is answered by these kinds.
fn give(paths: &mut Paths, number: u32, named: Kinds)
    requires { number < length (paths.old).read }
    ensures { paths.new ≡ record paths.old { read = with_answer number giving (naming_if named.lossy kinds.Lossy number (naming_if named.reliable kinds.Reliable number (paths.old).read)) } }
{
    respond(paths, number, Kind::Reliable, named.reliable);
    respond(paths, number, Kind::Lossy, named.lossy);
    paths.answered(number);
}

impl Session {
    ghost use Rattle.std.specs.Prelude.{◌≡◌, ◌+◌, ◌*◌, ◌≤◌, true, length, None, Some, IfSome, is_some, option_map};
    ghost use Rattle.mt_base.specs.declared.kinds.Role.TheVariants.{Client};
    ghost use Rattle.mt_base.specs.Trace.{Trace, ◌▷◌};
    ghost use Rattle.soft_sync.specs.Exchanges.{behind};
    ghost use Rattle.mt_endpoint.specs.Acts.{Act};
    ghost use Rattle.mt_endpoint.specs.Growing.{answered};
    ghost use Rattle.end_calls.specs.declared.limits.TheConstants.{MAIN_QUEUE};
    ghost use Rattle.end_session.specs.AnswerDue.{due, with_due};
    ghost use Rattle.end_session.specs.Standing.{Gone, Stands};

    /// A client answers the oldest Soft-Sync request that it read and has not answered, where it is known what
    /// became of each kind of tunnel that the request names: the answer names those that carry (MS-RDPEDYC
    /// sections 2.2.5.2 and 3.1.5.3). False where no answer is due. Takes no memory.
    pub fn answer_sync(&mut self) -> bool
        requires client { (self.old).role ≡ Client }
        requires whole { (self.old).broken ≡ None }
        requires room { length ((self.old).outgoing).main + 17 ≤ MAIN_QUEUE }
        ensures answered { (t : Trace Act) (gone : Gone) → Stands self.old t gone → Stands self.new (with_due (due t) t) gone }
        ensures due { (t : Trace Act) (gone : Gone) → Stands self.old t gone → result ≡ is_some (due t) }
        ensures owed { result ≡ true → (self.new).owed + 1 ≡ (self.old).owed }
        ensures written { length ((self.new).outgoing).main ≤ length ((self.old).outgoing).main + 17 }
        ensures settled { length ((self.new).outgoing).main + 17 * (self.new).owed ≤ length ((self.old).outgoing).main + 17 * (self.old).owed }
        ensures same { ((self.new).role ≡ (self.old).role) × ((self.new).broken ≡ (self.old).broken) }
    {
        let Some(due) = self.answer_due() else {
            return false;
        };
        let pdu = Spelled::of_sync_response(due.1);
        give(&mut self.paths, due.0, due.1);
        self.owed -= 1;
        self.outgoing.say(pdu.bytes());
        true
    }

    /// A client answers the Soft-Sync requests that it read, oldest first, up to one that has to wait. Takes
    /// no memory.
    pub fn answer_all(&mut self)
        requires client { (self.old).role ≡ Client }
        requires whole { (self.old).broken ≡ None }
        requires room { length ((self.old).outgoing).main + 17 * (self.old).owed ≤ MAIN_QUEUE }
        ensures answered { (t : Trace Act) (gone : Gone) → Stands self.old t gone → Stands self.new (answered Client t) gone }
        ensures settled { length ((self.new).outgoing).main + 17 * (self.new).owed ≤ length ((self.old).outgoing).main + 17 * (self.old).owed }
        ensures same { ((self.new).role ≡ (self.old).role) × ((self.new).broken ≡ (self.old).broken) }
    {
        for _turn in 0..self.owed {
            if !self.answer_sync() {
                return;
            }
        }
    }

    /// The answer that is due, with the number of its request.
    fn answer_due(&self) -> Option<(u32, Kinds)>
        requires { (self.now).role ≡ Client }
        ensures due { (t : Trace Act) (gone : Gone) → Stands self.now t gone → option_map (λ found. found.1) result ≡ due t }
        ensures number { IfSome result (λ found. behind (self.now).paths.read ≡ Some found.0) }
    {
        let Some(number) = self.paths.unanswered() else {
            return None;
        };
        let reliable = self.paths.names(number, Kind::Reliable);
        let lossy = self.paths.names(number, Kind::Lossy);
        if !is_known(reliable, &self.reliable) {
            return None;
        }
        if !is_known(lossy, &self.lossy) {
            return None;
        }
        let named = Kinds {
            reliable: carries(reliable, &self.reliable),
            lossy: carries(lossy, &self.lossy),
        };
        Some((number, named))
    }
}
