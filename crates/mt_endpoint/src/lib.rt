//! One end of a session: its channels, its tunnels, and the Soft-Sync exchange that moves channels
//! from the main stream to tunnels (MS-RDPEDYC section 3.1.5, MS-RDPEMT section 3). So far it is
//! definitions and laws: what an end does is a list of acts, and what it writes, holds, delivers and
//! is at fault for are functions of that list. The code of an end is still to come.
//!
//! Below it stand `dvc_channels`, `dvc_pdus`, `tunnel_pdus`, `tunnel_cookies` and `soft_sync`, whose
//! definitions it joins. What the crates above will use is the law of two ends: what is delivered on a
//! channel was sent, in order and each once, also across the channel's move, and neither end meets a
//! fault of the other ([`two_ends`]).
#![tactic(auto)]

mod laws;

pub use laws::{
    a_channel_is_listed_once, a_client_meets_no_fault, a_close_is_no_fault,
    a_server_meets_no_fault, a_session_moves_a_channel, a_tunnel_is_asked_for_once,
    an_end_keeps_its_law, an_open_tunnel_was_asked_for, answers_fit_requests,
    capabilities_come_first_and_once, creations_come_first, delivered_was_sent,
    no_frame_is_a_fault, no_release_is_a_fault, no_tunnel_pdu_is_a_fault, nothing_comes_too_late,
    nothing_rests_behind_its_word, sessions_are_of_two_ends, sessions_by_hand, two_ends,
};
