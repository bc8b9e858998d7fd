// The sessions that close: all, those of a closed line, and those with a removed node (document 01, virgin state, close a line and remove
// nodes). The tables left are those of specs/Sessions.antt: close_all, close_line, close_removed.
ghost use Rattle.std.specs.Prelude.{Bool, ◌≡◌};
ghost use Rattle.sessions.specs.declared.Slot.{Slot};
ghost use Rattle.sessions.specs.Search.{Computes};
ghost use Rattle.sessions.specs.Sessions.{close, close_all, close_line, holds_removed, close_removed};

use crate::slots::{closed_slot, is_open, put_slot, slot_at};
use crate::{SLOTS, Slot, TABLE};
use nodes::NODES;

// All sessions close.
pub fn close_all(slots: &mut [u8; TABLE])
    ensures { slots.new ≡ close_all slots.old }
{
    slots.fill(0);
}

// The sessions of a line close.
pub fn close_line(slots: &mut [u8; TABLE], line: u8)
    ensures { slots.new ≡ close_line line slots.old }
{
    close_where(slots, |slot| slot.is_on(line));
}

// The sessions with a node that is removed close.
pub fn close_removed(slots: &mut [u8; TABLE], table: &[u8], bits: &[u8])
    ensures { slots.new ≡ close_removed table.now bits.now slots.old }
{
    close_where(slots, |slot| holds_removed(slot, table, bits));
}

// The sessions that pass a test close.
fn close_where<F: Fn(Slot) -> bool>(slots: &mut [u8; TABLE], test: F)
    requires { F.IsAlwaysCallable test }
    ensures { (p : Slot → Bool) → Computes (F.post test) p → slots.new ≡ close p slots.old }
{
    for k in 0..SLOTS {
        if test(slot_at(slots, k)) {
            put_slot(slots, k, closed_slot());
        }
    }
}

// Whether a session has a node that is removed.
fn holds_removed(slot: Slot, table: &[u8], bits: &[u8]) -> bool
    ensures { result ≡ holds_removed table.now bits.now slot }
{
    is_open(slot) && (0..NODES).any(|node| slot.holds(node) && nodes::is_removed(table, bits, node))
}
