// The table of phases of a descriptor.
ghost use Rattle.std.specs.Prelude.{◌≡◌};
ghost use Rattle.phase_lists.specs.Lists.{lists_in};
ghost use Rattle.descriptor.specs.Rulings.{table_for};

use super::TariffPart;
use phase_lists::{PhaseLists, PhaseTable};

// The lists are looked at only where the tariff part is phased; their phases are judged for a line of this spacing.
pub fn phases_for(spacing: u32, part: TariffPart, lists: PhaseLists) -> PhaseTable
    ensures { result ≡ table_for spacing part (lists_in lists.entry) }
{
    if matches!(part, TariffPart::Phased) {
        lists.read(spacing)
    } else {
        PhaseTable::empty()
    }
}
