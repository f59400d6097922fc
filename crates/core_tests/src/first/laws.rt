//! The laws of the layout and of its links, cited at two machines.

use std::test::*;
use udp1_core::*;

#[test]
fn laws_hold(rt: HostRuntime) -> Result<(), Fail> {
    first_layout_is_read();
    one_part_goes_over();
    first_links_keep();
    first_links_join();
    let server = Udp1Core::new(rt.alloc(), 1, 2, 0x0001)?;
    let client = Udp1Core::new(rt.alloc(), 2, 1, 0x0001)?;
    pulled_was_given(&server, &client);
    Ok(())
}
