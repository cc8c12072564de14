//! Where the volume of a header is, and which data units protect it.
ghost use Rattle.std.specs.Prelude.{◌≡◌, ◌<◌, ◌+◌, ◌/◌, ◌%◌, ◌^◌, ℕ, max};
ghost use Rattle.vc_layout.specs.Layout.{IsSectorSize};
ghost use Rattle.vc_header.specs.Volume.{IsOfHidden, IsProtected, IsVolume};

use crate::fields::Fields;
use vc_layout::{DATA_UNIT, Geometry};

/// The volume of a valid header.
pub fn geometry_of(f: &Fields) -> Geometry
    requires { IsSectorSize f.now.sector }
    ensures { IsVolume f.now result }
{
    Geometry {
        start: f.start,
        sectors: f.volume_size / u64::from(f.sector),
        sector: f.sector,
    }
}

/// The data units of the container that hold a byte of the hidden volume of a valid header: the first
/// of them and their count. The greater of the two sizes in the header counts, rounded up.
pub fn protect_of(hidden: &Fields) -> (u64, u64)
    requires { hidden.now.start % 512 ≡ 0 }
    ensures first { result.0 ≡ hidden.now.start / 512 }
    ensures count { result.1 ≡ (max hidden.now.volume_size hidden.now.hidden_size + 511) / 512 }
    ensures covers { (at : ℕ) → IsOfHidden hidden.now at → IsProtected result (at / 512) }
    ensures no_more { (u : ℕ) → IsProtected result u → (at : ℕ) × (at / 512 ≡ u) × IsOfHidden hidden.now at }
{
    let size = hidden.volume_size.max(hidden.hidden_size);
    (hidden.start / DATA_UNIT, size.div_ceil(DATA_UNIT))
}

#[cfg(test)]
mod tests {
    use super::*;
    use crate::fields::MATERIAL;
    use vc_layout::is_sector_size;

    // The fields of a hidden volume.
    fn fields(start: u64, volume_size: u64, hidden_size: u64, sector: u32) -> Fields
        ensures start { result.start ≡ start }
        ensures sector { result.sector ≡ sector }
    {
        Fields {
            hidden_size,
            volume_size,
            start,
            encrypted: volume_size,
            flags: 0,
            sector,
            material: [0u8; MATERIAL],
        }
    }

    #[test]
    fn sectors_are_counted_in_their_own_size(rt: HostRuntime) {
        // by hand
        for (sector, sectors) in [(512, 1536), (1024, 768), (2048, 384), (4096, 192)] {
            let want = Geometry {
                start: 131_072,
                sectors,
                sector,
            };
            assert!(rt; is_sector_size(sector), "{sector}");
            assert_eq!(rt;
                geometry_of(&fields(131_072, 786_432, 0, sector)),
                want,
                "{sector}"
            );
        }
    }

    #[test]
    fn protected_units_are_rounded_up(rt: HostRuntime) {
        // by hand: start, volume's size, hidden size, and the range of units
        let rows = [
            (655_360, 262_144, 262_144, (1280, 512)),
            (655_872, 261_632, 261_632, (1281, 511)),
            (654_848, 262_656, 262_656, (1279, 513)),
            (655_360, 262_144, 1, (1280, 512)),
            (655_360, 512, 262_143, (1280, 512)),
            (655_360, 512, 262_144, (1280, 512)),
            (655_360, 512, 261_633, (1280, 512)),
            (655_360, 512, 261_632, (1280, 511)),
            (655_360, 512, u64::MAX, (1280, 1 << 55)),
        ];
        for (start, volume_size, hidden_size, want) in rows {
            let hidden = fields(start, volume_size, hidden_size, 512);
            assert!(rt; start % DATA_UNIT == 0, "{start}");
            assert_eq!(rt;
                protect_of(&hidden),
                want,
                "{volume_size} and {hidden_size}"
            );
        }
    }
}
