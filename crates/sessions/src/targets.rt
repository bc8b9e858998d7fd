// Whether what a mode send asks for is legal (document 01, mode send, status 5).
// The answers are those of specs/Sessions.antt: is_legal, may_command.
ghost use Rattle.std.specs.Prelude.{◌≡◌, [], ◌&&◌, ltb};
ghost use Rattle.nodes.specs.Table.{in_use};
ghost use Rattle.sessions.specs.Sessions.{target_count, targets_legal, is_legal, may_command};

use crate::{INDICES, MAX_LOCK, MAX_PRIORITY, ModeSend, TARGETS};

// The originators that a mode send may have.
const ORIGINATORS: [u8; 10] = [1, 2, 3, 5, 8, 9, 11, 12, 13, 255];

// Whether count, indices, priority, lock and originator are all allowed.
pub(crate) fn is_legal(table: &[u8], request: ModeSend) -> bool
    ensures { result ≡ is_legal table.now request }
{
    let count = usize::from(request.count);
    if count < 1 || INDICES < count || !targets_legal(table, &request.indices[..count]) {
        return false;
    }
    request.lock <= MAX_LOCK && may_command(request.originator, request.priority)
}

// Whether an originator and a priority are such as a mode send may have.
pub fn may_command(originator: u8, priority: u8) -> bool
    ensures { result ≡ may_command originator priority }
{
    priority <= MAX_PRIORITY && ORIGINATORS.contains(&originator)
}

// Whether each index is a node in use that no index before it names.
fn targets_legal(table: &[u8], indices: &[u8]) -> bool
    ensures { result ≡ targets_legal table.now [] indices.now }
{
    let mut seen = [false; TARGETS];
    for target in indices {
        let node = usize::from(*target);
        if !is_target(table, node) || seen[node] {
            return false;
        }
        seen[node] = true;
    }
    true
}

// Whether a session may hold a node.
fn is_target(table: &[u8], node: usize) -> bool
    ensures { result ≡ (ltb node target_count && in_use table.now node) }
{
    node < TARGETS && nodes::in_use(table, node)
}
