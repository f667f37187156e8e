// The numbers of refusals.
#![tactic(auto)]

ghost use Rattle.std.specs.Prelude.{◌≡◌};
ghost use Rattle.format.specs.Refusals.{number};

use format::Reason;

// The number of a refusal.
pub fn number(reason: Reason) -> u8
    ensures { result ≡ number reason }
{
    reason.into()
}
