//! Comparing statuses.
ghost use Rattle.std.specs.Prelude.{◌≡◌};
ghost use Rattle.ext_report.specs.Report.{is_status};

use ext_lifecycle::Status;

/// Tests whether two statuses are equal.
pub(crate) fn is_status(status: Status, other: Status) -> bool
    ensures { result ≡ is_status status other }
{
    status == other
}
