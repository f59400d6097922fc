//! The first layout (MS-RDPEUDP section 2.2).

use crate::contents::read_contents;
use crate::head::write_head;
use crate::settle::settle_named;
use carrier::Reason;
use link_machine::{Contents, Got, Numbers, Told, WireLayout};
use mt_base::W32;
use mt_windows::SendWindow;

/// The datagrams of the first layout.
pub struct First;

impl WireLayout for First {
    ghost use Rattle.std.specs.Prelude.{true, refl};
    ghost use Rattle.udp1_core.specs.ContentsView.{CanTell};
    ghost use Rattle.udp1_core.specs.FirstLayout.{first_wire};

    type Width = W32;

    ghost wire = { first_wire };

    ghost TELLS_PARTS = { true };

    const TELLS_PARTS: bool = true;

    ghost can_tell = { CanTell };

    fn read<'a>(datagram: &'a [u8], scratch: &'a mut [u8; 1232]) -> Result<Contents<'a>, Reason> {
        let _ = scratch;
        read_contents(datagram)
    }

    fn settle(window: &mut SendWindow<W32>, told: Told<'_>) -> bool {
        match told {
            Told::Nothing => false,
            Told::Upto { named, bytes } => settle_named(window, named, bytes),
            Told::Last { .. } | Told::From { .. } => unreachable!(),
        }
    }

    fn head(
        got: &Got<'_, W32>,
        tells: bool,
        above: Option<u64>,
        numbers: Option<Numbers>,
        out: &mut [u8; 1232],
    ) -> usize {
        write_head(got, tells, above, numbers, out)
    }

    fn finish(out: &mut [u8; 1232], length: usize) -> usize {
        let _ = out;
        length
    }

    fn is_wire() {}

    ghost tells_parts_is = { refl };

    ghost modulus_is = { refl };
}
