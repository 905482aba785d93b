//! What holds between the parts of a record.
ghost use Rattle.std.specs.Prelude.{◌≡◌};
ghost use Rattle.std.specs.List.{list_all};
ghost use Rattle.saverecord.specs.Relations.{fits_record, agrees, is_at_home};

use super::record::Record;
use farm_base::Lease;
use recordlists::{
    are_apart, are_of_own_folders, are_private, fits_tenure, has_retired, is_above_lines, is_gone,
    is_home, lines_up_to, lives_there, tickets_up_to,
};

#[tactic(auto, unfolding(crate::specs::Relations::fits_record))]
fn fits_record(saved: &Record, lease: &Lease) -> bool
    ensures { result ≡ fits_record saved.now lease.now }
{
    lives_there(saved.lives.as_slice(), lease)
        && !has_retired(saved.retired.as_slice(), lease)
        && are_of_own_folders(lease.slots.as_slice())
        && fits_tenure(lease)
        && !is_gone(saved.retired_nodes.as_slice(), lease)
        && is_above_lines(saved.lines.as_slice(), lease)
}

fn all_fit(saved: &Record) -> bool
    ensures { result ≡ list_all (fits_record saved.now) saved.now.leases }
{
    saved
        .leases
        .as_slice()
        .iter()
        .all(|lease| fits_record(saved, lease))
}

/// Whether the parts of a record agree.
#[tactic(auto, unfolding(crate::specs::Relations::agrees))]
pub(crate) fn agrees(saved: &Record) -> bool
    ensures { result ≡ agrees saved.now }
{
    tickets_up_to(saved.last.0, saved.leases.as_slice())
        && lines_up_to(saved.last.0, saved.lines.as_slice())
        && are_private(saved.retired.as_slice())
        && all_fit(saved)
        && are_apart(saved.leases.as_slice())
}

/// Whether each lease of a record of version 1 whose wants have a SHARED folder is of the home.
pub(crate) fn is_at_home(saved: &Record) -> bool
    ensures { result ≡ is_at_home saved.now }
{
    let home = saved.old_home;
    saved
        .leases
        .as_slice()
        .iter()
        .all(|lease| !lease.shared || is_home(home, lease.node))
}
