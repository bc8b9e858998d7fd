// The session table slot by slot: what a slot says, the lowest that passes a test, and other bytes in it (document 01, mode send).
// Answers and tables are those of specs/Sessions.antt: slot_at, with_slot, closed_slot, is_open, is_numbered, is_on, holds.
ghost use Rattle.std.specs.Prelude.{Bool, ◌+◌, ◌*◌, ◌≤◌, ◌≡◌, length};
ghost use Rattle.std.specs.List.{list_any, position};
ghost use Rattle.sessions.specs.declared.Slot.{Slot};
ghost use Rattle.sessions.specs.Search.{Computes};
ghost use Rattle.sessions.specs.Sessions.{slot_count, slot_size, closed_slot, slot_from, slots_of, slot_at, with_slot, is_open, is_numbered, is_on, holds};

use crate::{HEAD, MARKS, SLOT, SLOTS, Slot, TABLE};

impl Slot {
    // Whether an open session has a number.
    pub(crate) fn is_numbered(self, number: u16) -> bool
        ensures { result ≡ is_numbered number self }
    {
        is_open(self) && self.number == number
    }

    // Whether an open session is on a line.
    pub(crate) fn is_on(self, line: u8) -> bool
        ensures { result ≡ is_on line self }
    {
        is_open(self) && self.line == line
    }

    // Whether an open session holds a node.
    pub(crate) fn holds(self, node: usize) -> bool
        ensures { result ≡ holds node self }
    {
        is_open(self) && nodes::bit(&self.nodes, node)
    }

    // Whether an open session holds one of these nodes.
    pub(crate) fn holds_any(self, indices: &[u8]) -> bool
        ensures { result ≡ list_any (λ n. holds n self) indices.now }
    {
        indices.iter().any(|node| self.holds(usize::from(*node)))
    }
}

// What a slot says; a closed one where there is none.
pub fn slot_at(slots: &[u8; TABLE], k: usize) -> Slot
    ensures { result ≡ slot_at slots.now k }
{
    if SLOTS <= k {
        return closed_slot();
    }
    slot_from(slots, k * SLOT)
}

// Whether a slot has an open session.
pub fn is_open(slot: Slot) -> bool
    ensures { result ≡ is_open slot }
{
    slot.used == 1
}

// The lowest slot that passes a test.
pub(crate) fn first_where<F: Fn(Slot) -> bool>(slots: &[u8; TABLE], test: F) -> Option<usize>
    requires { F.IsAlwaysCallable test }
    ensures { (p : Slot → Bool) → Computes (F.post test) p → result ≡ position p (slots_of slots.now) }
{
    (0..SLOTS).find(|k| test(slot_at(slots, *k)))
}

// The lowest slot with a number.
pub(crate) fn first_numbered(slots: &[u8; TABLE], number: u16) -> Option<usize>
    ensures { result ≡ position (is_numbered number) (slots_of slots.now) }
{
    first_where(slots, |slot| slot.is_numbered(number))
}

// A free slot.
pub(crate) fn closed_slot() -> Slot
    ensures { result ≡ closed_slot }
{
    Slot {
        used: 0,
        line: 0,
        number: 0,
        nodes: [0; MARKS],
    }
}

// Other bytes in a slot.
pub(crate) fn put_slot(slots: &mut [u8; TABLE], k: usize, slot: Slot)
    requires { k ≤ slot_count }
    ensures { slots.new ≡ with_slot slots.old k slot }
{
    let at = k * SLOT;
    let [high, low] = slot.number.to_be_bytes();
    memory::copy(slots, at, &[slot.used, slot.line, high, low]);
    memory::copy(slots, at + HEAD, &slot.nodes);
}

// What the slot says whose bytes begin at a place.
fn slot_from(slots: &[u8], at: usize) -> Slot
    requires { at + slot_size ≤ length slots.now }
    ensures { result ≡ slot_from slots.now at }
{
    let mut nodes = [0; MARKS];
    nodes.copy_from_slice(&slots[at + HEAD..at + SLOT]);
    Slot {
        used: slots[at],
        line: slots[at + 1],
        number: u16::from_be_bytes([slots[at + 2], slots[at + 3]]),
        nodes,
    }
}
