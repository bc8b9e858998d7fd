// Which lines are logged in (document 01, "What the commands do").
// The answer is that of specs/Hub.antt: is_listed.
ghost use Rattle.std.specs.Prelude.{◌≡◌};
ghost use Rattle.rules.specs.Hub.{is_listed};

// Whether a line is logged in.
// Stays: `memory::byte`; of `logins.get(..) == Some(&1)` the goal stayed open that a line above 3 is not logged in.
pub fn is_logged_in(logins: [u8; crate::LINES], line: u8) -> bool
    ensures { result ≡ is_listed logins line }
{
    memory::byte(&logins, usize::from(line)) == 1
}
