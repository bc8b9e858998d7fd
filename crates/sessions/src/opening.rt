// A mode send: the first status that applies, and a session opened (document 01, mode send); what another request has to know to open one.
// Answers and tables are those of specs/Sessions.antt: mode_send_status, opened, opened_with. What is legal stands in `targets`, the slots in
// `slots`.
ghost use Rattle.std.specs.Prelude.{◌≡◌, replicate};
ghost use Rattle.std.specs.List.{position};
ghost use Rattle.sessions.specs.Search.{any};
ghost use Rattle.sessions.specs.Sessions.{mark_bytes, slots_of, is_free, is_numbered, holds, named, marked, status_number, mode_send_status, opened_with, opened};

use crate::slots::{first_numbered, first_where, is_open, put_slot};
use crate::targets::is_legal;
use crate::{INDICES, MARKS, ModeSend, ModeSendStatus, Slot, TABLE};

// The first status that applies to a mode send.
#[tactic(auto, using(crate::specs::SessionLaws::legal_count))]
pub fn status(slots: &[u8; TABLE], table: &[u8], request: ModeSend) -> ModeSendStatus
    ensures { status_number result ≡ mode_send_status (slots_of slots.now) table.now request }
{
    if !is_legal(table, request) {
        return ModeSendStatus::IllegalParameter;
    }
    if is_number_open(slots, request.session) {
        return ModeSendStatus::SessionInUse;
    }
    if !has_free(slots) {
        return ModeSendStatus::NoFreeSlot;
    }
    if any_held(slots, &request.indices[..usize::from(request.count)]) {
        return ModeSendStatus::Rejected;
    }
    ModeSendStatus::Accepted
}

// The lowest free slot takes the session of a mode send on a line; where none is free, nothing changes.
pub fn open_session(slots: &mut [u8; TABLE], line: u8, request: ModeSend)
    ensures { slots.new ≡ opened slots.old line request }
{
    open_with(slots, line, request.session, nodes_of(request));
}

// The lowest free slot takes a session by its line, number and nodes; where none is free, nothing changes.
pub fn open_with(slots: &mut [u8; TABLE], line: u8, number: u16, nodes: [u8; MARKS])
    ensures { slots.new ≡ opened_with slots.old line number nodes }
{
    if let Some(k) = first_free(slots) {
        let slot = Slot {
            used: 1,
            line,
            number,
            nodes,
        };
        put_slot(slots, k, slot);
    }
}

// Whether a session's number is open on any line.
pub fn is_number_open(slots: &[u8; TABLE], number: u16) -> bool
    ensures { result ≡ any (is_numbered number) (slots_of slots.now) }
{
    first_numbered(slots, number).is_some()
}

// Whether a slot is free.
pub fn has_free(slots: &[u8; TABLE]) -> bool
    ensures { result ≡ any is_free (slots_of slots.now) }
{
    first_free(slots).is_some()
}

// Whether some open session holds a node.
pub fn is_held(slots: &[u8; TABLE], node: usize) -> bool
    ensures { result ≡ any (holds node) (slots_of slots.now) }
{
    first_where(slots, |slot| slot.holds(node)).is_some()
}

// The lowest free slot.
fn first_free(slots: &[u8; TABLE]) -> Option<usize>
    ensures { result ≡ position is_free (slots_of slots.now) }
{
    first_where(slots, |slot| !is_open(slot))
}

// Whether some open session holds one of these nodes.
fn any_held(slots: &[u8; TABLE], indices: &[u8]) -> bool
    ensures { result ≡ any (λ n. any (holds n) (slots_of slots.now)) indices.now }
{
    first_where(slots, |slot| slot.holds_any(indices)).is_some()
}

// The nodes of a mode send, a bit for each; it names no more than `INDICES`.
fn nodes_of(request: ModeSend) -> [u8; MARKS]
    ensures { result ≡ marked (replicate mark_bytes 0) (named request) }
{
    let count = usize::from(request.count).min(INDICES);
    marked(&request.indices[..count])
}

// The nodes that the indices name, a bit for each.
fn marked(indices: &[u8]) -> [u8; MARKS]
    ensures { result ≡ marked (replicate mark_bytes 0) indices.now }
{
    let mut marks = [0; MARKS];
    for target in indices {
        let node = usize::from(*target);
        let k = node / 8;
        if k < MARKS {
            marks[k] |= 1 << (node % 8);
        }
    }
    marks
}
