//! The settings of a ring.
ghost use Rattle.std.specs.Prelude.{IfOk, IsOk};
ghost use Rattle.chord_app_plan.specs.Plan.{AreOfPlan, SettingsAre, members_of};
ghost use Rattle.chord_live_types.specs.declared.settings.Settings.{Settings};

use crate::entries::Entries;
use crate::fault::PlanFault;
use chord_live_types::Settings;

/// The settings in the plan's own table.
pub(crate) fn read_settings(top: &Entries) -> Result<Settings, PlanFault>
    ensures value { IfOk result (SettingsAre (members_of top.now)) }
    ensures limits { IfOk result AreOfPlan }
    ensures accepts { (settings : Settings) → SettingsAre (members_of top.now) settings → AreOfPlan settings → IsOk result }
{
    Ok(Settings {
        slots: top.number("slots", 1, 64)? as usize,
        callers: top.number("callers", 0, 64)? as usize,
        successors: top.number("successors", 2, 16)? as usize,
        tries: top.number("tries", 1, 1000)?,
        wait_ms: top.number("wait", 1, 60_000)?,
    })
}
