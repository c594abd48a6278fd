// What decides over a tag, in any mode.
ghost use Rattle.std.specs.Prelude.{◌≡◌};
ghost use Rattle.octets.specs.Same.{same};
ghost use Rattle.octets.specs.Lent.{lowest};
ghost use Rattle.refusals.specs.Numbers.{outcome_number};
ghost use Rattle.modes.specs.Calls.{authentic_tests};

use octets::strings::{Block, equal};
use refusals::Refusal;

// Refused where a byte of the tag is not the right one's, whatever the earlier ones are.
pub(crate) fn check_tag(tag: &Block, right: &Block) -> Result<(), Refusal>
    ensures { outcome_number result ≡ lowest (authentic_tests (same tag.now right.now)) }
{
    if equal(tag, right) {
        return Ok(());
    }
    Err(Refusal::WrongTag)
}
