//! The writing of file messages.

ghost use Rattle.std.specs.Prelude.{◌≡◌, ◌+◌, ◌≤◌, ◌∷◌, length};
ghost use Rattle.file_messages.specs.Files.{name_message, piece_message};
ghost use Rattle.file_messages.specs.Written.{with_message};

/// Writes the message by which a file of this name begins to the front of `out`, which has room
/// for one byte more than the name, and gives its length.
pub fn name_message(name: &str, out: &mut [u8]) -> usize
    requires room { length name.now + 1 ≤ length out.old }
    ensures length { result ≡ length name.now + 1 }
    ensures bytes { out.new ≡ with_message (name_message name.now) out.old }
{
    put(b'N', name.as_bytes(), out)
}

/// Writes the message of a piece to the front of `out`, which has room for one byte more than the
/// piece, and gives its length. A piece has 1 to 65,536 bytes; a content is cut into pieces of
/// [`PIECE`](crate::PIECE) bytes, of which the last may be shorter.
pub fn piece_message(piece: &[u8], out: &mut [u8]) -> usize
    requires room { length piece.now + 1 ≤ length out.old }
    ensures length { result ≡ length piece.now + 1 }
    ensures bytes { out.new ≡ with_message (piece_message piece.now) out.old }
{
    put(b'D', piece, out)
}

/// Writes a byte and others behind it to the front of `out`.
fn put(first: u8, rest: &[u8], out: &mut [u8]) -> usize
    requires room { length rest.now + 1 ≤ length out.old }
    ensures length { result ≡ length rest.now + 1 }
    ensures bytes { out.new ≡ with_message (first ∷ rest.now) out.old }
{
    let end = rest.len() + 1;
    out[0] = first;
    out[1..end].copy_from_slice(rest);
    end
}
