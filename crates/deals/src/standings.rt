ghost use Rattle.std.specs.Prelude.{◌≡◌};
ghost use Rattle.psb_machine.specs.Deals.{standing};

use psb_machine::Standing;

/// How the deal `number` stands where `last` is the number of the peer's last one, 0 for none.
pub fn standing(last: u64, number: u64) -> Standing
    ensures { result ≡ standing last number }
{
    if number == 0 || number < last {
        Standing::Stale
    } else if number == last {
        Standing::Repeat
    } else if number - 1 == last {
        Standing::Fresh
    } else {
        Standing::Gap
    }
}
