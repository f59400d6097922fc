//! The values of the two streams. Their parts are borrowed from the bytes that they were read
//! from.

use mt_base::Kind;

/// A tunnel PDU (MS-RDPEMT section 2.2).
#[derive(Clone, Copy, Debug, PartialEq, Eq)]
pub enum TunnelPdu<'a> {
    /// The client asks to open a tunnel (section 2.2.2.1), with the 16 bytes of its cookie.
    CreateRequest { id: u32, cookie: &'a [u8] },
    /// The server answers that (section 2.2.2.2). An HrResponse of 0 is success.
    CreateResponse { hr: u32 },
    /// At most 1,600 bytes of a channel (section 2.2.2.3).
    Data { payload: &'a [u8] },
}

/// A frame of the main stream. The frame is this project's own; the bodies of the first two are
/// those of MS-RDPBCGR section 2.2.15.
#[derive(Clone, Copy, Debug, PartialEq, Eq)]
pub enum MainFrame<'a> {
    /// The server asks for a tunnel (section 2.2.15.1), with the 16 bytes of its cookie.
    Request {
        id: u32,
        kind: Kind,
        cookie: &'a [u8],
    },
    /// The client tells what became of it (section 2.2.15.2). An hrResponse of 0 is success.
    Response {
        id: u32,
        hr: u32,
    },
    /// One channel PDU, of 1 to 1,600 bytes.
    Channel {
        pdu: &'a [u8],
    },
}
