//! Stories of one end, and of two.

ghost use Rattle.std.specs.Prelude.{◌≡◌, ◌⊎◌};

mod arrival;
mod laws;
mod refusals;
mod tellings;
mod timer;

use link_net::{Ending, Step, Story, play};
use mt_base::NoMemory;
use std::alloc::Global;
use udp1_core::Udp1Core;

/// The part 2 of two bytes.
const PART_2: [u8; 18] = [
    0, 0, 0, 1, 0, 0x40, 0, 8, 0, 0, 0, 2, 0, 0, 0, 2, 0x41, 0x42,
];

/// The part 2 was received.
const TELLS_2: [u8; 12] = [0, 0, 0, 2, 0, 0x40, 0, 4, 0, 1, 1, 0];

/// Goes through these steps at one end of a new link of this version, 0x0001 or 0x0002, between ends
/// that both have the initial number 1; the inner `Err` has the place of the first that does not hold.
fn goes(alloc: Global, version: u16, steps: &[Step]) -> Result<Result<(), usize>, NoMemory>
    requires { (version ≡ 0x0001) ⊎ (version ≡ 0x0002) }
{
    let mut link = Udp1Core::new(alloc, 1, 1, version)?;
    Ok(play(&mut link, steps))
}

/// How this story ends for two links of this version with these initial numbers.
fn ends(alloc: Global, initial: (u32, u32), version: u16, story: &Story) -> Result<Ending, NoMemory>
    requires { (version ≡ 0x0001) ⊎ (version ≡ 0x0002) }
{
    let near = Udp1Core::new(alloc, initial.0, initial.1, version)?;
    let far = Udp1Core::new(alloc, initial.1, initial.0, version)?;
    story.run(alloc, near, far)
}
