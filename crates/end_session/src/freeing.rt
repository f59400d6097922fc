//! What is held is released for the channels that a Soft-Sync request or its answer moves.

use crate::hearing_moves::kinds_of;
use crate::listed::Listed;
use crate::session::Session;
use crate::untaken::Untaken;
use dvc_pdus::{DvcPdu, SyncLists};
use soft_sync::Kinds;

/// The channels that the requests of an end list at most.
const LISTED: usize = 256;

impl Session {
    ghost use Rattle.std.specs.Prelude.{◌≡◌, ◌<◌, ◌≤◌, length, None, OnOk, IfErr, IfSome};
    ghost use Rattle.mt_base.specs.Trace.{Trace};
    ghost use Rattle.dvc_pdus.specs.ListViews.{lists_left};
    ghost use Rattle.dvc_pdus.specs.Views.{pdu_of};
    ghost use Rattle.soft_sync.specs.Exchanges.{channels_at};
    ghost use Rattle.mt_endpoint.specs.Acts.{Act};
    ghost use Rattle.mt_endpoint.specs.Growing.{among, release_all};
    ghost use Rattle.mt_endpoint.specs.Moving.{channels_listed};
    ghost use Rattle.end_session.specs.Coming.{Came, Ended};
    ghost use Rattle.end_session.specs.Freeing.{AreThrough, HasRoomFor, WroteCloses, freed_by, moved_by};
    ghost use Rattle.end_session.specs.Standing.{Gone, Stands};

    /// Releases what is held for the channels that a PDU moves, which was read: a Soft-Sync request, or the answer to
    /// this end's request of a number.
    pub fn release_freed(&mut self, pdu: &DvcPdu<'_>, request: Option<u32>) -> Result<(), Untaken>
        requires whole { (self.old).broken ≡ None }
        requires made { IfSome request (λ number. number < length ((self.old).paths).made) }
        requires few { length (moved_by request ((self.old).paths).made) ≤ 256 }
        requires words { AreThrough (freed_by (pdu_of pdu.now) request ((self.old).paths).made) (self.old).paths }
        requires room { HasRoomFor (length (freed_by (pdu_of pdu.now) request ((self.old).paths).made)) (self.old).outgoing }
        ensures came { (t : Trace Act) (gone : Gone) → Stands self.old t gone → OnOk result (Came (release_all (self.old).role (freed_by (pdu_of pdu.now) request ((self.old).paths).made) t) gone self.new) }
        ensures ended { (t : Trace Act) (gone : Gone) → Stands self.old t gone → IfErr result (λ untaken. Ended t (release_all (self.old).role (freed_by (pdu_of pdu.now) request ((self.old).paths).made) t) gone self.new untaken) }
        ensures written { WroteCloses (length (freed_by (pdu_of pdu.now) request ((self.old).paths).made)) (self.old).outgoing (self.new).outgoing }
        ensures owed { (self.new).owed ≡ (self.old).owed }
        ensures same { ((self.new).role ≡ (self.old).role) × ((self.new).broken ≡ (self.old).broken) }
    {
        match *pdu {
            DvcPdu::SyncRequest { lists, .. } => self.release_listed(lists),
            DvcPdu::SyncResponse { types } => match request {
                Some(request) => self.release_moved(request, kinds_of(types)),
                None => Ok(()),
            },
            _ => Ok(()),
        }
    }

    /// Releases what is held for the channels that a Soft-Sync request lists, in its order (MS-RDPEDYC section
    /// 3.1.5.3): each channel's as [`Session::release`] does, up to a PDU that isn't taken.
    fn release_listed(&mut self, lists: SyncLists<'_>) -> Result<(), Untaken>
        requires whole { (self.old).broken ≡ None }
        requires words { AreThrough (channels_listed (lists_left lists)) (self.old).paths }
        requires room { HasRoomFor (length (channels_listed (lists_left lists))) (self.old).outgoing }
        ensures came { (t : Trace Act) (gone : Gone) → Stands self.old t gone → OnOk result (Came (release_all (self.old).role (channels_listed (lists_left lists.entry)) t) gone self.new) }
        ensures ended { (t : Trace Act) (gone : Gone) → Stands self.old t gone → IfErr result (λ untaken. Ended t (release_all (self.old).role (channels_listed (lists_left lists.entry)) t) gone self.new untaken) }
        ensures written { WroteCloses (length (channels_listed (lists_left lists.entry))) (self.old).outgoing (self.new).outgoing }
        ensures owed { (self.new).owed ≡ (self.old).owed }
        ensures same { ((self.new).role ≡ (self.old).role) × ((self.new).broken ≡ (self.old).broken) }
    {
        for (id, kind) in Listed::of(lists) {
            self.release(kind, id)?;
        }
        Ok(())
    }

    /// Releases what is held for the channels that this end's Soft-Sync request of a number lists under these kinds, in
    /// its order (MS-RDPEDYC section 3.1.5.3): each channel's as [`Session::release`] does, up to a PDU that isn't taken.
    fn release_moved(&mut self, request: u32, kinds: Kinds) -> Result<(), Untaken>
        requires whole { (self.old).broken ≡ None }
        requires made { request < length ((self.old).paths).made }
        requires few { length (channels_at request ((self.old).paths).made) ≤ 256 }
        requires words { AreThrough (among kinds (channels_at request ((self.old).paths).made)) (self.old).paths }
        requires room { HasRoomFor (length (among kinds (channels_at request ((self.old).paths).made))) (self.old).outgoing }
        ensures came { (t : Trace Act) (gone : Gone) → Stands self.old t gone → OnOk result (Came (release_all (self.old).role (among kinds (channels_at request ((self.old).paths).made)) t) gone self.new) }
        ensures ended { (t : Trace Act) (gone : Gone) → Stands self.old t gone → IfErr result (λ untaken. Ended t (release_all (self.old).role (among kinds (channels_at request ((self.old).paths).made)) t) gone self.new untaken) }
        ensures written { WroteCloses (length (among kinds (channels_at request ((self.old).paths).made))) (self.old).outgoing (self.new).outgoing }
        ensures owed { (self.new).owed ≡ (self.old).owed }
        ensures same { ((self.new).role ≡ (self.old).role) × ((self.new).broken ≡ (self.old).broken) }
    {
        // What the end stands for is known from here on.
        let _ = &self.role;
        for place in 0..LISTED {
            let Some((id, kind)) = self.paths.made_channel(request, place) else {
                return Ok(());
            };
            if kinds.has(kind) {
                self.release(kind, id)?;
            }
        }
        Ok(())
    }
}
