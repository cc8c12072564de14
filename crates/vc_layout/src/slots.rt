//! The four slots for headers.
ghost use Rattle.std.specs.Prelude.{◌≡◌, ◌≤◌, ◌↔◌, IsTrue};
ghost use Rattle.vc_layout.specs.Layout.{place_of, slot_name, IsContainerLength};

use crate::sector::DATA_UNIT;

/// The length of a header group, one at each end of a container.
pub const GROUP: u64 = 131_072;

/// The shortest container that is opened: two header groups and one of the smallest sectors.
pub const SHORTEST: u64 = 2 * GROUP + DATA_UNIT;

/// The longest container that is opened.
pub const LONGEST: u64 = 1 << 60;

/// One of the four places for a header. Standard and Hidden are at the container's start, their
/// backups in the same order at its end.
#[derive(Clone, Copy, Debug, PartialEq, Eq)]
pub enum Slot {
    Standard,
    Hidden,
    BackupStandard,
    BackupHidden,
}

impl Slot {
    /// The name that users read.
    pub fn name(self) -> &'static str
        ensures { result.now ≡ slot_name self }
    {
        match self {
            Slot::Standard => "standard",
            Slot::Hidden => "hidden",
            Slot::BackupStandard => "backup-standard",
            Slot::BackupHidden => "backup-hidden",
        }
    }
}

/// Whether a container of `len` bytes can be opened.
pub fn is_container_length(len: u64) -> bool
    ensures { IsTrue result ↔ IsContainerLength len }
{
    SHORTEST <= len && len <= LONGEST
}

/// The offset of a slot's header in a container of `len` bytes.
pub fn slot_at(slot: Slot, len: u64) -> u64
    requires { 262656 ≤ len }
    ensures { result ≡ place_of slot len }
{
    match slot {
        Slot::Standard => 0,
        Slot::Hidden => GROUP / 2,
        Slot::BackupStandard => len - GROUP,
        Slot::BackupHidden => len - GROUP / 2,
    }
}

#[cfg(test)]
mod tests {
    use super::*;

    #[test]
    fn slots_are_at_both_ends(rt: HostRuntime) {
        // by hand, for a container of 1 MiB
        let rows = [
            (Slot::Standard, 0),
            (Slot::Hidden, 65_536),
            (Slot::BackupStandard, 917_504),
            (Slot::BackupHidden, 983_040),
        ];
        for (slot, place) in rows {
            assert_eq!(rt; slot_at(slot, 1_048_576), place, "{slot:?}");
        }
    }

    #[test]
    fn lengths_have_limits(rt: HostRuntime) {
        let rows = [
            (262_655, false),
            (262_656, true),
            (262_657, true),
            (1 << 60, true),
            ((1 << 60) + 1, false),
        ];
        for (len, can) in rows {
            assert_eq!(rt; is_container_length(len), can, "{len}");
        }
    }
}
