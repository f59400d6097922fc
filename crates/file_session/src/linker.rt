//! The links that an end's tunnels get.

ghost use Rattle.std.specs.Prelude.{◌≡◌, [], false, IfOk};
ghost use Rattle.mt_base.specs.Trace.{Start};
ghost use Rattle.udp_open.specs.OpeningView.{IsOffered};
ghost use Rattle.udp_open.specs.declared.settings.OpenSettings.{OpenSettings};
ghost use Rattle.endpoint.specs.Attached.{is_closed};

use carrier::Carrier;
use mt_base::NoMemory;
use std::alloc::Global;
use udp_open::{OpenSettings, UdpLink};

/// Makes links for tunnels. `is_made` says that a link opens with these settings.
pub trait Linker<C: Carrier> {
    ghost is_made: { C → OpenSettings → Type 0 };

    /// A link with these settings, of which nothing was called yet, and which isn't closed.
    fn link(&mut self, settings: &OpenSettings) -> Result<C, NoMemory>
        requires version { IsOffered settings.now.version }
        ensures fresh { IfOk result (λ link. C.stands link Start) }
        ensures empty { IfOk result (λ link. (C.left link ≡ []) × (C.load link ≡ 0)) }
        ensures unclosed { IfOk result (λ link. is_closed (C.condition link) ≡ false) }
        ensures made { IfOk result (λ link. is_made link settings.now) };
}

/// Makes links of UDP.
#[derive(Clone, Copy)]
pub struct UdpLinker {
    pub alloc: Global,
}

impl Linker<UdpLink> for UdpLinker {
    ghost use Rattle.std.specs.Prelude.{◌≡◌};

    ghost is_made = { λ link settings. link.opening.settings ≡ settings };

    fn link(&mut self, settings: &OpenSettings) -> Result<UdpLink, NoMemory> {
        UdpLink::new(self.alloc, settings)
    }
}
