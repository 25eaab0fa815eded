// The plan's last line.
ghost use Rattle.std.specs.Prelude.{◌≡◌, ◌≤◌, length};
ghost use Rattle.runner.specs.Events.{line, line_of};
ghost use Rattle.distances.specs.Refusal.{reply_number};
ghost use Rattle.runner.specs.Steps.{last_text};

use crate::Runner;
use distances::Refusal;

// `end E`, or `refused R at O`.
pub(crate) fn last_line(out: &mut [u8], end: Result<(), Refusal>, r: &Runner) -> usize
    requires { 544 ≤ length out.old }
    ensures { line result out.new ≡ line_of (last_text (reply_number end) r.now.events r.now.offset) out.old }
{
    match end {
        Ok(()) => text::lines::end(out, r.events).unwrap_or(0),
        Err(refusal) => {
            text::lines::refused(out, refusal.number() as u32, r.offset).unwrap_or(0)
        }
    }
}
