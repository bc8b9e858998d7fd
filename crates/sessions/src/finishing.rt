// A session finished by its number (document 01, host calls).
// Answers and tables are those of specs/Sessions.antt: finish.
ghost use Rattle.std.specs.Prelude.{◌≡◌};
ghost use Rattle.sessions.specs.Sessions.{finish, left_by, told, told_by};

use crate::TABLE;
use crate::slots::{closed_slot, first_numbered, put_slot, slot_at};

// The line of the session with a number, in the lowest slot that has it; none where the number is not open.
pub fn line_of(slots: &[u8; TABLE], number: u16) -> Option<u8>
    ensures { told_by result ≡ told (finish slots.now number) }
{
    let k = first_numbered(slots, number)?;
    Some(slot_at(slots, k).line)
}

// That session closes.
pub fn finish(slots: &mut [u8; TABLE], number: u16)
    ensures { slots.new ≡ left_by (finish slots.old number) slots.old }
{
    if let Some(k) = first_numbered(slots, number) {
        put_slot(slots, k, closed_slot());
    }
}
