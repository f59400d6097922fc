//! Laws of perfect links, in the words of their traces.

ghost use Rattle.std.specs.Prelude.{◌≡◌, ◌++◌, ℕ, List};
ghost use Rattle.mt_base.specs.Trace.{Trace};
ghost use Rattle.carrier.specs.Entries.{Entry, given, posted, pulled};
ghost use Rattle.carrier.specs.Perfect.{Comes, PerfectFaithful, passed, unpulled};
ghost use Rattle.carrier.specs.PerfectThin.{IsPickedFrom, PerfectThin, handed, kept_parts, taken};
ghost use Rattle.carrier.specs.PerfectView.{CarrierStands, PostStands};

use crate::perfect_carrier::PerfectCarrier;
use crate::perfect_post::PerfectPost;

/// What a perfect carrier pulled, and what it has left, is what it accepted, in order.
pub fn perfect_bytes_in_order(link: &PerfectCarrier)
    ensures trace { (t : Trace Entry) → PerfectFaithful t → pulled t ++ unpulled t ≡ passed t }
    ensures left { (t : Trace Entry) → CarrierStands link.now t → pulled t ++ link.now.arrived ≡ passed t }
{}

/// What a perfect post handed out, and what it has left, is what it accepted, in order.
pub fn perfect_parts_in_order(link: &PerfectPost)
    ensures trace { (t : Trace Entry) → PerfectThin t → handed t ++ kept_parts t ≡ taken t }
    ensures left { (t : Trace Entry) → PostStands link.now t → handed t ++ link.now.arrived ≡ taken t }
{}

/// Over a network that loses, copies and reorders datagrams and makes none, the bytes that one
/// perfect carrier accepted are the first of those that the other was given, and so are those that
/// it pulled.
pub fn perfect_bytes_arrive()
    ensures passed { (a b : Trace Entry) → PerfectFaithful a → PerfectFaithful b → Comes a b → (rest : List ℕ) × (passed b ++ rest ≡ given a) }
    ensures pulled { (a b : Trace Entry) → PerfectFaithful a → PerfectFaithful b → Comes a b → (rest : List ℕ) × (pulled b ++ rest ≡ given a) }
{}

/// Over such a network the parts that one perfect post accepted are some of those that the other
/// posted, in the same order and each once, and so are those that it handed out.
pub fn perfect_parts_arrive()
    ensures taken { (a b : Trace Entry) → PerfectThin a → PerfectThin b → Comes a b → IsPickedFrom (taken b) (posted a) }
    ensures handed { (a b : Trace Entry) → PerfectThin a → PerfectThin b → Comes a b → IsPickedFrom (handed b) (posted a) }
{}
