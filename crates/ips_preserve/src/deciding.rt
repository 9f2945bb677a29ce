//! The keep table.

ghost use Rattle.std.specs.Prelude.{◌≡◌};
ghost use Rattle.ips_preserve.specs.Keep as table;

use crate::case::{Case, Event, Standing};
use crate::keep::Keep;
use crate::keep::Keep::{Drop, Lay, LayNew, SalvageDrop, SalvageLay, SaveLegacy, SaveOld, Stay};
use ips_action::Preserve;

/// What becomes of a file in this case.
pub fn decide(case: Case) -> Keep
    ensures { result ≡ table.keep case }
{
    match case.event {
        Event::First => at_first(case.preserve, case.standing),
        Event::Update if case.changed => at_change(case.preserve, case.standing),
        Event::Update => row(Stay, Stay, Stay, Stay, case.standing),
        Event::Removal => at_removal(case.preserve, case.standing),
    }
}

// Where a file is wanted at the path, and none was before.
fn at_first(preserve: Preserve, standing: Standing) -> Keep
    ensures { result ≡ table.at_first preserve standing }
{
    match preserve {
        Preserve::None => row(Lay, Lay, SalvageLay, SalvageLay, standing),
        Preserve::True => row(Lay, Lay, Stay, SalvageLay, standing),
        Preserve::RenameOld => row(Lay, Lay, SaveOld, SalvageLay, standing),
        Preserve::RenameNew => row(Lay, Lay, LayNew, SalvageLay, standing),
        Preserve::Legacy | Preserve::Abandon => row(Stay, Stay, Stay, Stay, standing),
        Preserve::InstallOnly => row(Lay, Stay, Stay, Stay, standing),
    }
}

// Where a file is wanted at the path with another payload than before.
fn at_change(preserve: Preserve, standing: Standing) -> Keep
    ensures { result ≡ table.at_change preserve standing }
{
    match preserve {
        Preserve::None => row(Lay, Lay, Lay, SalvageLay, standing),
        Preserve::True => row(Lay, Lay, Stay, SalvageLay, standing),
        Preserve::RenameOld => row(Lay, Lay, SaveOld, SalvageLay, standing),
        Preserve::RenameNew => row(Lay, Lay, LayNew, SalvageLay, standing),
        Preserve::Legacy => row(Lay, SaveLegacy, SaveLegacy, SalvageLay, standing),
        Preserve::Abandon | Preserve::InstallOnly => row(Stay, Stay, Stay, Stay, standing),
    }
}

// Where a file was wanted at the path, and nothing is any more.
fn at_removal(preserve: Preserve, standing: Standing) -> Keep
    ensures { result ≡ table.at_removal preserve standing }
{
    match preserve {
        Preserve::None => row(Stay, Drop, Drop, Stay, standing),
        Preserve::True | Preserve::RenameOld | Preserve::RenameNew | Preserve::Legacy => {
            row(Stay, Drop, SalvageDrop, Stay, standing)
        }
        Preserve::Abandon | Preserve::InstallOnly => row(Stay, Stay, Stay, Stay, standing),
    }
}

// A row of the table: its answers where nothing stands at the path, the payload's bytes, other bytes, and no file.
fn row(absent: Keep, same: Keep, different: Keep, not_file: Keep, standing: Standing) -> Keep
    ensures { result ≡ table.row absent same different not_file standing }
{
    match standing {
        Standing::Absent => absent,
        Standing::Same => same,
        Standing::Different => different,
        Standing::NotFile => not_file,
    }
}
