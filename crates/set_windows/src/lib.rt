// SETWINDOWS: a new list of windows, from its text, in place of the old one.
#![tactic(auto)]

ghost use Rattle.std.specs.Prelude.{◌≡◌};
ghost use Rattle.table.specs.Refused.{numbered};
ghost use Rattle.versions.specs.Store.{lent};
ghost use Rattle.set_windows.specs.SetWindows.{set_out};

use register::Areas;
use table::Refusal;
use versions::{Store, areas_differ, lengths_in};
use windows::{Windows, read_list};

// SETWINDOWS text: the windows of the text; those that there were where it is refused.
pub fn set_windows(s: &Store, w: &mut Windows, areas: &Areas, text: &[u8]) -> Result<(), Refusal>
    ensures { let a = lent areas.now in
        (numbered result ≡ (set_out s.now w.old a text.now).answer)
        × (w.new ≡ (set_out s.now w.old a text.now).windows) }
{
    if areas_differ(s, lengths_in(areas)) {
        return Err(Refusal::AreaLength);
    }
    *w = read_list(text)?;
    Ok(())
}
