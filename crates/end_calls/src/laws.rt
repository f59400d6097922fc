//! Laws of the calls of an end.

ghost use Rattle.std.specs.Prelude.{◌≡◌, ◌++◌, ℕ, List, Option};
ghost use Rattle.std.specs.List.{fold};
ghost use Rattle.mt_base.specs.declared.kinds.Kind.{Kind};
ghost use Rattle.mt_base.specs.declared.kinds.Role.{Role};
ghost use Rattle.mt_base.specs.Trace.{Trace};
ghost use Rattle.tunnel_cookies.specs.Entries.{IsVerdict};
ghost use Rattle.tunnel_cookies.specs.declared.entry.Entry.{Entry as Issued};
ghost use Rattle.mt_endpoint.specs.Tunnels.{link_of};
ghost use Rattle.end_calls.specs.Streams.{Past, with_tunnel, verdict_by};
ghost use Rattle.end_calls.specs.Calls.{Entry, after_bytes};
ghost use Rattle.end_calls.specs.Example.{Shows};
ghost use Rattle.end_calls.specs.Net.{Net, Safe};
ghost use Rattle.end_calls.specs.Session.{capable, Shown};

/// A client by hand, worked out on the definitions byte by byte: capabilities that come in two
/// pieces, a tunnel that is asked for and opens, and a byte that is no frame.
pub fn a_client_in_bytes()
    ensures { Shows }
{}

/// What is read of a stream doesn't depend on how it is cut into calls.
pub fn cuts_do_not_matter()
    ensures main { (role : Role) (p : Past) (xs ys : List ℕ)
        → after_bytes role p (xs ++ ys) ≡ after_bytes role (after_bytes role p xs) ys }
    ensures tunnel { (role : Role) (p : Past) (xs ys : List ℕ)
        → fold (with_tunnel role) p (xs ++ ys) ≡ fold (with_tunnel role) (fold (with_tunnel role) p xs) ys }
{}

/// The verdict on a create request is the one that the table of issued requests gives (MS-RDPEMT
/// section 3.2.5.1).
pub fn verdicts_are_of_the_table()
    ensures { (kind : Kind) (cookie : List ℕ) (entry : Option Issued)
        → IsVerdict (link_of kind) kind cookie entry (verdict_by kind cookie entry) }
{}

/// Two ends of a session, call by call, with their bytes. Each keeps the law of its calls, and what it
/// took left the other: the front of the main stream, the front of what the reliable link was given, and
/// some of the parts that were posted on the lossy one, in order. Then what is delivered on a channel was
/// sent on it, as `mt_endpoint::delivered_was_sent` says, in both directions and at each place of the
/// list; and neither end has a fault but want of memory. How the streams are cut into calls, and where
/// memory is wanting, makes no difference to that. The limits of what waits and of what is held are
/// those that the law of an end's calls asks for.
pub fn two_ends_in_bytes()
    ensures { (w : Trace (Role × Entry)) → Net w → Safe w }
{}

/// Two ends that tell each other their capabilities, call by call and byte by byte:
/// [`two_ends_in_bytes`] speaks of them.
pub fn two_ends_by_hand()
    ensures net { Net capable }
    ensures shown { Shown }
{}
