//! The channels that a Soft-Sync request lists, one by one.

use dvc_pdus::{SyncList, SyncLists};
use mt_base::Kind;

/// The channels that a Soft-Sync request lists, in order, each with its kind of tunnel.
#[derive(Clone, Copy, Debug, PartialEq, Eq)]
pub struct Listed<'a> {
    list: Option<SyncList<'a>>,
    lists: SyncLists<'a>,
}

impl<'a> Listed<'a> {
    ghost use Rattle.std.specs.Prelude.{◌≡◌};
    ghost use Rattle.dvc_pdus.specs.ListViews.{lists_left};
    ghost use Rattle.mt_endpoint.specs.Moving.{channels_listed};
    ghost use Rattle.end_session.specs.ListedView.{channels_left};

    /// The channels of these lists.
    pub fn of(lists: SyncLists<'a>) -> Listed<'a>
        ensures { channels_left result ≡ channels_listed (lists_left lists.entry) }
    {
        let mut lists = lists;
        let list = lists.next();
        Listed { list, lists }
    }
}

impl<'a> Iterator for Listed<'a> {
    ghost use Rattle.std.specs.Iterator.{YieldsFirst, item_count};
    ghost use Rattle.end_session.specs.ListedView.{channels_left};

    type Item = (u32, Kind);

    ghost next_gives = { YieldsFirst channels_left };

    ghost remaining = { item_count channels_left };

    fn next(&mut self) -> Option<(u32, Kind)> {
        while let Some(list) = self.list {
            let mut ids = list.ids;
            if let Some(id) = ids.next() {
                let kind = list.kind;
                self.list = Some(SyncList { kind, ids });
                return Some((id, kind));
            }
            self.list = self.lists.next();
        }
        None
    }
}
