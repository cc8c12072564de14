//! Data units of a container and sectors of a volume.
//!
//! A data unit is what XTS enciphers under one number, and always has 512 bytes. A volume's sectors are
//! whole data units: 1, 2, 4 or 8 of them.
ghost use Rattle.std.specs.Prelude.{◌↔◌, IsTrue};
ghost use Rattle.vc_layout.specs.Layout.{IsSectorSize};

/// The length of a data unit.
pub const DATA_UNIT: u64 = 512;

/// The lengths that the sectors of a volume may have.
pub const SECTOR_SIZES: [u32; 4] = [512, 1024, 2048, 4096];

/// Whether the sectors of a volume may have this length.
pub fn is_sector_size(sector: u32) -> bool
    ensures { IsTrue result ↔ IsSectorSize sector }
{
    let [first, second, third, fourth] = SECTOR_SIZES;
    sector == first || sector == second || sector == third || sector == fourth
}
