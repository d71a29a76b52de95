//! Numbers of days by which a current plan is extended.
ghost use Rattle.std.specs.Prelude.{◌≡◌, ◌≢◌, ℕ, IfSome, IfNone};
ghost use Rattle.std.specs.Fmt.{decimal};
ghost use Rattle.planner_cli_stream.specs.ExtensionDays.{AreExtensionDays};

use crate::JobNumber;

/// The number of days, 1 to 21, that the text spells in decimal digits, without a leading zero.
pub(crate) fn days_from_text(text: &str) -> Option<u8>
    ensures some { IfSome result (λ days. text.now ≡ decimal days) }
    ensures range { IfSome result AreExtensionDays }
    ensures none { IfNone result ((n : ℕ) → AreExtensionDays n → text.now ≢ decimal n) }
{
    let number = JobNumber::from_text(text)?.number();
    if number > 21 {
        return None;
    }
    Some(number as u8)
}
