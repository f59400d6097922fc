//! A channel PDU with its bytes.

ghost use Rattle.std.specs.Prelude.{◌≡◌, if◌then◌else◌};

use dvc_pdus::{DvcPdu, write_dvc, write_sync, write_sync_response};
use mt_base::Kind;
use soft_sync::Kinds;
use std::marker::Model;

/// The bytes of the greatest channel PDU.
const SPELLED: usize = 1_600;

/// The bytes that spell a channel PDU. Clauses see it as the list of them.
#[derive(Drop)]
pub struct Spelled {
    bytes: [u8; 1600],
    length: usize,
}

/// Where the kinds that are named begin among both, the reliable one first.
fn first_type(named: Kinds) -> usize
    ensures { result ≡ (if named.reliable then 0 else 1) }
{
    if named.reliable { 0 } else { 1 }
}

/// And where they end.
fn last_type(named: Kinds) -> usize
    ensures { result ≡ (if named.lossy then 2 else 1) }
{
    if named.lossy { 2 } else { 1 }
}

impl Model for Spelled {
    ghost use Rattle.std.specs.Prelude.{◌≤◌, List, ℕ, take};

    ghost Value = { List ℕ };

    ghost view = { λ s. take s.length s.bytes };

    ghost invariant = { λ s. (1 ≤ s.length) × (s.length ≤ 1600) };
}

impl Spelled {
    ghost use Rattle.std.specs.Prelude.{◌≡◌, ◌≤◌, length};
    ghost use Rattle.mt_base.specs.declared.kinds.Role.{Role};
    ghost use Rattle.mt_base.specs.declared.kinds.Role.TheVariants.{Server};
    ghost use Rattle.dvc_pdus.specs.Value.{IsPdu, SyncResponse, spelled, sync_request};
    ghost use Rattle.mt_endpoint.specs.Writing.{types_of};
    ghost use Rattle.dvc_pdus.specs.Views.{pdu_of};

    /// The bytes of a PDU.
    pub fn of(pdu: &DvcPdu<'_>) -> Spelled
        requires { (from : Role) × IsPdu from (pdu_of pdu.now) }
        ensures { result ≡ spelled (pdu_of pdu.now) }
    {
        let mut bytes = [0; SPELLED];
        let Ok(length) = write_dvc(pdu, &mut bytes) else {
            unreachable!()
        };
        Spelled { bytes, length }
    }

    /// The bytes of the Soft-Sync request that moves these channels (MS-RDPEDYC section 2.2.5.1).
    pub fn of_sync(reliable: &[u32], lossy: &[u32]) -> Spelled
        requires { IsPdu Server (sync_request reliable.now lossy.now) }
        ensures { result ≡ spelled (sync_request reliable.now lossy.now) }
    {
        let mut bytes = [0; SPELLED];
        let Ok(length) = write_sync(reliable, lossy, &mut bytes) else {
            unreachable!()
        };
        Spelled { bytes, length }
    }

    /// The bytes of the Soft-Sync response that names these kinds, the reliable one first (MS-RDPEDYC section
    /// 2.2.5.2).
    pub fn of_sync_response(named: Kinds) -> Spelled
        ensures { result ≡ spelled (SyncResponse (types_of named)) }
    {
        let both = [Kind::Reliable, Kind::Lossy];
        let types = &both[first_type(named)..last_type(named)];
        let mut bytes = [0; SPELLED];
        let Ok(length) = write_sync_response(types, &mut bytes) else {
            unreachable!()
        };
        Spelled { bytes, length }
    }

    /// How many bytes there are.
    pub fn len(&self) -> usize
        ensures count { result ≡ length self.now }
        ensures bounds { (1 ≤ result) × (result ≤ 1600) }
    {
        self.length
    }

    /// The bytes.
    pub fn bytes(&self) -> &[u8]
        ensures bytes { result.now ≡ self.now }
        ensures bounds { (1 ≤ length result.now) × (length result.now ≤ 1600) }
    {
        &self.bytes[..self.length]
    }
}
