//! What a Soft-Sync request moves, and what its response takes, over the bytes that they were read
//! from. These bytes were checked when they were read, so each item that an iterator counts is there,
//! and is read once more where it is yielded.

use crate::sync::{kind, list};
use mt_base::{Cursor, Kind};

/// The channels that move to a tunnel of one kind (section 2.2.5.1.1).
#[derive(Clone, Copy, Debug, PartialEq, Eq)]
pub struct SyncList<'a> {
    pub kind: Kind,
    pub ids: Ids<'a>,
}

/// The channel ids of a list, in order.
#[derive(Clone, Copy, Debug, PartialEq, Eq)]
pub struct Ids<'a> {
    count: u16,
    bytes: &'a [u8],
}

/// The lists of a Soft-Sync request, in order.
#[derive(Clone, Copy, Debug, PartialEq, Eq)]
pub struct SyncLists<'a> {
    count: u16,
    bytes: &'a [u8],
}

/// The kinds of tunnel that a Soft-Sync response names, in order.
#[derive(Clone, Copy, Debug, PartialEq, Eq)]
pub struct SyncTypes<'a> {
    count: u32,
    bytes: &'a [u8],
}

impl<'a> Ids<'a> {
    ghost use Rattle.std.specs.Prelude.{◌≡◌, ◌<◌, ◌^◌, length};
    ghost use Rattle.dvc_pdus.specs.Reading.{items_in, number_at};
    ghost use Rattle.dvc_pdus.specs.ListViews.{ids_left};

    /// So many ids in these bytes.
    pub(crate) fn new(count: u16, bytes: &'a [u8]) -> Ids<'a>
        ensures { ids_left result ≡ items_in number_at count bytes.entry.now }
    {
        Ids { count, bytes }
    }

    /// How many ids are left.
    #[tactic(auto, using(crate::proofs::SyncWriting::items_few))]
    pub(crate) fn len(self) -> usize
        ensures exact { result ≡ length (ids_left self.entry) }
        ensures few { result < 2 ^ 16 }
    {
        self.count()
    }
}

impl<'a> SyncLists<'a> {
    ghost use Rattle.std.specs.Prelude.{◌≡◌};
    ghost use Rattle.dvc_pdus.specs.Reading.{items_in, list_at};
    ghost use Rattle.dvc_pdus.specs.ListViews.{lists_left};

    /// So many lists in these bytes.
    pub(crate) fn new(count: u16, bytes: &'a [u8]) -> SyncLists<'a>
        ensures { lists_left result ≡ items_in list_at count bytes.entry.now }
    {
        SyncLists { count, bytes }
    }
}

impl<'a> SyncTypes<'a> {
    ghost use Rattle.std.specs.Prelude.{◌≡◌, ◌<◌, ◌^◌, length};
    ghost use Rattle.dvc_pdus.specs.Reading.{items_in, kind_at};
    ghost use Rattle.dvc_pdus.specs.ListViews.{types_left};

    /// So many types in these bytes.
    pub(crate) fn new(count: u32, bytes: &'a [u8]) -> SyncTypes<'a>
        ensures { types_left result ≡ items_in kind_at count bytes.entry.now }
    {
        SyncTypes { count, bytes }
    }

    /// How many types are left.
    #[tactic(auto, using(crate::proofs::SyncWriting::items_few))]
    pub(crate) fn len(self) -> usize
        ensures exact { result ≡ length (types_left self.entry) }
        ensures few { result < 2 ^ 32 }
    {
        self.count()
    }
}

impl<'a> Iterator for Ids<'a> {
    ghost use Rattle.std.specs.Iterator.{YieldsFirst, item_count};
    ghost use Rattle.dvc_pdus.specs.ListViews.{ids_left};

    type Item = u32;

    ghost next_gives = { YieldsFirst ids_left };

    ghost remaining = { item_count ids_left };

    #[tactic(auto, unfolding(crate::specs::Reading::number_at))]
    fn next(&mut self) -> Option<u32> {
        if self.count == 0 {
            return None;
        }
        let mut from = Cursor::new(self.bytes);
        let id = from.u32_le().ok()?;
        self.count -= 1;
        self.bytes = from.rest();
        Some(id)
    }
}

impl<'a> Iterator for SyncLists<'a> {
    ghost use Rattle.std.specs.Iterator.{YieldsFirstBy, item_count};
    ghost use Rattle.dvc_pdus.specs.ListViews.{list_of, lists_left};

    type Item = SyncList<'a>;

    ghost next_gives = { YieldsFirstBy list_of lists_left };

    ghost remaining = { item_count lists_left };

    fn next(&mut self) -> Option<SyncList<'a>> {
        if self.count == 0 {
            return None;
        }
        let mut from = Cursor::new(self.bytes);
        let list = list(&mut from).ok()?;
        self.count -= 1;
        self.bytes = from.rest();
        Some(list)
    }
}

impl<'a> Iterator for SyncTypes<'a> {
    ghost use Rattle.std.specs.Iterator.{YieldsFirst, item_count};
    ghost use Rattle.dvc_pdus.specs.ListViews.{types_left};

    type Item = Kind;

    ghost next_gives = { YieldsFirst types_left };

    ghost remaining = { item_count types_left };

    fn next(&mut self) -> Option<Kind> {
        if self.count == 0 {
            return None;
        }
        let mut from = Cursor::new(self.bytes);
        let kind = kind(&mut from).ok()?;
        self.count -= 1;
        self.bytes = from.rest();
        Some(kind)
    }
}
