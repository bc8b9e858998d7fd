// What a mode send asks for: its data, read by their layout (document 01, mode send).
// It is that of specs/Sessions.antt: mode_send_of.
ghost use Rattle.std.specs.Prelude.{◌≡◌};
ghost use Rattle.sessions.specs.Sessions.{mode_send_of};

use crate::{INDICES, MODE_SEND, ModeSend};

// The data of a mode send.
pub fn mode_send_of(payload: [u8; MODE_SEND]) -> ModeSend
    ensures { result ≡ mode_send_of payload }
{
    let mut indices = [0; INDICES];
    indices.copy_from_slice(&payload[7..7 + INDICES]);
    ModeSend {
        session: u16::from_be_bytes([payload[0], payload[1]]),
        originator: payload[2],
        priority: payload[3],
        count: payload[6],
        indices,
        lock: payload[27],
    }
}
