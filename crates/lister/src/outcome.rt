// The line of an outcome, appended to a page.
// It is written whole or not at all, and is the definition's: specs/Listing.antt, specs/Lists.antt.
ghost use Rattle.lister.specs.Lists.{OutcomeLine};

use frame::FrameOutcome;
use text::Page;

// The line of an outcome, if there is one.
pub fn outcome_line(page: &mut Page, outcome: FrameOutcome)
    ensures { OutcomeLine outcome page.old page.new }
{
    match outcome {
        FrameOutcome::Nothing => {}
        FrameOutcome::Frame { command, len } => crate::lines::frame_line(page, command, len),
        FrameOutcome::Refused(refusal) => {
            crate::lines::refused_line(page, frame::number(refusal.cause), refusal.at)
        }
    }
}
