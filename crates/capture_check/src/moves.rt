//! The channels that Soft-Sync moves, and the tunnels that a response names.

ghost use Rattle.std.specs.Prelude.{◌≡◌, ◌++◌, ◌||◌, IfOk, OnOk};
ghost use Rattle.mt_base.specs.Ends.{same_kind};
ghost use Rattle.mt_base.specs.declared.kinds.Kind.{Kind};
ghost use Rattle.dvc_pdus.specs.ListViews.{ids_left, lists_left, types_left};
ghost use Rattle.capture_check.specs.Sayings.{moves_in, moves_to, names};
ghost use Rattle.capture_check.specs.WordsSoFar.{is_named};

use dvc_pdus::{SyncList, SyncLists, SyncTypes};
use mt_base::{Kind, NoMemory};
use std::alloc::Global;

/// A channel that a Soft-Sync request lists, and the kind of the tunnel that it moves to.
#[derive(Clone, Copy)]
pub(crate) struct Move {
    pub(crate) kind: Kind,
    pub(crate) id: u32,
}

/// The channels that a Soft-Sync request moves.
pub(crate) fn moves(alloc: Global, lists: SyncLists<'_>) -> Result<Vec<Move>, NoMemory>
    ensures { IfOk result (λ moves. moves.items ≡ moves_in (lists_left lists.entry)) }
{
    let mut moves = Vec::new(alloc);
    for list in lists {
        add_list(&mut moves, list)?;
    }
    Ok(moves)
}

/// Adds the channels of one list.
fn add_list(moves: &mut Vec<Move>, list: SyncList<'_>) -> Result<(), NoMemory>
    ensures { OnOk result ((moves.new).items
        ≡ (moves.old).items ++ moves_to list.entry.kind (ids_left list.entry.ids)) }
{
    for id in list.ids {
        moves
            .push(Move {
                kind: list.kind,
                id,
            })
            .map_err(|_| NoMemory)?;
    }
    Ok(())
}

/// The kinds of tunnel that a Soft-Sync response names.
#[derive(Clone, Copy)]
pub(crate) struct Named {
    reliable: bool,
    lossy: bool,
}

impl Named {
    /// All of them.
    pub(crate) const ALL: Named = Named {
        reliable: true,
        lossy: true,
    };

    /// The kinds of these types.
    pub(crate) fn of(types: SyncTypes<'_>) -> Named
        ensures { (kind : Kind) → is_named result kind ≡ names (types_left types.entry) kind }
    {
        let mut named = Named {
            reliable: false,
            lossy: false,
        };
        for kind in types {
            named.add(kind);
        }
        named
    }

    /// Names a kind too.
    fn add(&mut self, kind: Kind)
        ensures { (other : Kind) → is_named self.new other ≡ (is_named self.old other || same_kind other kind) }
    {
        match kind {
            Kind::Reliable => self.reliable = true,
            Kind::Lossy => self.lossy = true,
        }
    }

    /// Whether a kind is named.
    pub(crate) fn has(self, kind: Kind) -> bool
        ensures { result ≡ is_named self kind }
    {
        match kind {
            Kind::Reliable => self.reliable,
            Kind::Lossy => self.lossy,
        }
    }
}
