//! The layouts that links agreed on so far.

ghost use Rattle.std.specs.Prelude.{◌↔◌, ◌≡◌, ◌++◌, ◌∷◌, [], ℕ, List, IsTrue, IsFalse, option_copied};
ghost use Rattle.capture_check.specs.declared.entry.Entry.{Entry};
ghost use Rattle.capture_check.specs.declared.layout.Layout.{Layout};
ghost use Rattle.capture_check.specs.Layouts.{IsReadable};
ghost use Rattle.capture_check.specs.LayoutsSoFar.{AreAgreed, ReadsNow, layout_of};
ghost use Rattle.capture_check.specs.RequestsSoFar.{CarriesJustAfter};
ghost use Rattle.capture_check.specs.Tellings.{HasLayout, Tells};
ghost use Rattle.capture_check.specs.TellingsSoFar.{HasJust, MayTell, ShowsJustAfter};

use crate::came::NumbersCame;
use crate::entry::Entry;
use crate::layout::{GREATEST, Layout, answered, opening};
use mt_base::Kind;

/// For each kind of link the layout that its last SYN+ACK chose.
#[derive(Clone, Copy)]
pub(crate) struct AgreedLayouts {
    reliable: Option<Layout>,
    lossy: Option<Layout>,
}

impl AgreedLayouts {
    /// No link agreed yet.
    pub(crate) fn new() -> AgreedLayouts
        ensures { AreAgreed result [] }
    {
        AgreedLayouts {
            reliable: None,
            lossy: None,
        }
    }

    /// The layout of a link of this kind.
    fn layout(self, kind: Kind) -> Option<Layout>
        ensures { result ≡ layout_of self kind }
    {
        match kind {
            Kind::Reliable => self.reliable,
            Kind::Lossy => self.lossy,
        }
    }

    /// Whether an entry is no datagram, or one that is an opening or is read by its link's layout.
    pub(crate) fn can_read(self, entry: &Entry) -> bool
        ensures { (before : List Entry) → AreAgreed self before
            → IsTrue result ↔ IsReadable before entry.now }
    {
        match entry {
            Entry::Out { kind, datagram, .. } => self.reads(*kind, datagram.bytes()),
            _ => true,
        }
    }

    /// Whether a datagram is an opening, or is read by its link's layout.
    fn reads(self, kind: Kind, datagram: &[u8]) -> bool
        ensures { IsTrue result ↔ ReadsNow (layout_of self kind) datagram.now }
    {
        if opening(datagram).is_some() {
            return true;
        }
        match self.layout(kind) {
            Some(layout) => layout.reads(datagram),
            None => false,
        }
    }

    /// The layout of a datagram that is no opening.
    fn layout_for(self, kind: Kind, datagram: &[u8]) -> Option<Layout>
        ensures { (before : List Entry) → AreAgreed self before
            → HasJust kind before datagram.now result }
    {
        if opening(datagram).is_some() {
            return None;
        }
        self.layout(kind)
    }

    /// The number that a datagram shows.
    pub(crate) fn shown(self, kind: Kind, datagram: &[u8]) -> Option<u64>
        ensures { (before : List Entry) → AreAgreed self before
            → ShowsJustAfter kind before datagram.now result }
    {
        match self.layout_for(kind, datagram) {
            Some(layout) => layout.shown(datagram),
            None => None,
        }
    }

    /// The data that a datagram carries. Those of the second layout are borrowed from `scratch`.
    pub(crate) fn carried<'a>(
        self,
        kind: Kind,
        datagram: &'a [u8],
        scratch: &'a mut [u8; GREATEST],
    ) -> Option<&'a [u8]>
        ensures { (before : List Entry) → AreAgreed self before
            → CarriesJustAfter kind before datagram.now (option_copied result) }
    {
        match self.layout_for(kind, datagram) {
            Some(layout) => layout.carried(datagram, scratch),
            None => None,
        }
    }

    /// Whether a datagram tells only numbers as received that came, or SeqNum 0 where none came.
    pub(crate) fn tells_what_came(self, kind: Kind, datagram: &[u8], came: &NumbersCame) -> bool
        ensures kept { (before : List Entry) → AreAgreed self before → IsTrue result
            → (layout : Layout) (n : ℕ) → HasLayout kind before datagram.now layout → Tells layout datagram.now n
            → MayTell came.now layout datagram.now n }
        ensures broken { (before : List Entry) → AreAgreed self before → IsFalse result
            → (layout : Layout) × (n : ℕ) × HasLayout kind before datagram.now layout × Tells layout datagram.now n
            × ¬ MayTell came.now layout datagram.now n }
    {
        match self.layout_for(kind, datagram) {
            Some(layout) => layout.tells_what_came(datagram, came),
            None => true,
        }
    }

    /// Notes an entry.
    pub(crate) fn note(&mut self, entry: &Entry)
        ensures { (before : List Entry) → AreAgreed self.old before
            → AreAgreed self.new (before ++ entry.now ∷ []) }
    {
        if let Entry::Out { kind, datagram, .. } = entry {
            if let Some(layout) = answered(datagram.bytes()) {
                match kind {
                    Kind::Reliable => self.reliable = Some(layout),
                    Kind::Lossy => self.lossy = Some(layout),
                }
            }
        }
    }
}
