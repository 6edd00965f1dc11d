//! Units of a run, counted by calls that answer results.

ghost use Rattle.std.specs.Prelude.{◌≡◌};
ghost use Rattle.risch_run.specs.Counted.{one_unit, IsCountedResult, LeavesOf};

use crate::{Ended, result_of};
use risch_elem::Units;

/// One unit more.
///
/// `Err` with Budget exactly where the count of units stands at its most; with Left where the run was left. No other error.
pub fn charge<U: Units>(units: &mut U) -> Result<(), Ended>
    ensures counted { IsCountedResult result one_unit (U.units units.old) (U.units units.new) (U.most units.old) }
    ensures leaves { LeavesOf result (U.leaves units.old) (U.leaves units.new) }
    ensures same_most { U.most units.new ≡ U.most units.old }
    ensures same_kept { U.kept units.new ≡ U.kept units.old }
{
    result_of(units.unit())
}
