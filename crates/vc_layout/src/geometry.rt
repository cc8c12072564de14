//! Where a volume is in its container.
ghost use Rattle.std.specs.Prelude.{◌↔◌, IfSome, IsSome, IsTrue};
ghost use Rattle.vc_layout.specs.Layout.{IsFormattable, IsHidden, IsHideable, IsOuter};

use crate::sector::is_sector_size;
use crate::slots::GROUP;

/// The longest container that is formatted.
pub const LONGEST_FORMATTED: u64 = 1 << 40;

/// A volume of `sectors` sectors of `sector` bytes each, from byte `start` of its container on.
#[derive(Clone, Copy, Debug, PartialEq, Eq)]
pub struct Geometry {
    pub start: u64,
    pub sectors: u64,
    pub sector: u32,
}

/// The outer volume of a new container of `len` bytes, with sectors of `sector` bytes: all that lies
/// between its header groups.
pub fn outer_of(len: u64, sector: u32) -> Option<Geometry>
    ensures formattable { IsSome result ↔ IsFormattable len sector }
    ensures place { IfSome result (IsOuter len sector) }
{
    if !is_formattable(len, sector) {
        return None;
    }
    Some(Geometry {
        start: GROUP,
        sectors: (len - 2 * GROUP) / u64::from(sector),
        sector,
    })
}

/// A new hidden volume of `size` bytes in a container of `len` bytes, with sectors of `sector` bytes,
/// which may be others than those of the outer volume. It ends where the backup headers begin.
pub fn hidden_of(len: u64, size: u64, sector: u32) -> Option<Geometry>
    ensures hideable { IsSome result ↔ IsHideable len size sector }
    ensures place { IfSome result (IsHidden len size sector) }
{
    if !is_formattable(len, sector) || !is_between(len, size, sector) {
        return None;
    }
    Some(Geometry {
        start: len - GROUP - size,
        sectors: size / u64::from(sector),
        sector,
    })
}

// Whether a container of this length is formatted with sectors of this size.
fn is_formattable(len: u64, sector: u32) -> bool
    ensures { IsTrue result ↔ IsFormattable len sector }
{
    is_sector_size(sector)
        && 2 * GROUP + u64::from(sector) <= len
        && len <= LONGEST_FORMATTED
        && len % u64::from(sector) == 0
}

// Whether a hidden volume of this size has whole sectors between the header groups.
fn is_between(len: u64, size: u64, sector: u32) -> bool
    requires { IsFormattable len sector }
    ensures { IsTrue result ↔ IsHideable len size sector }
{
    size != 0 && size % u64::from(sector) == 0 && size <= len - 2 * GROUP
}

#[cfg(test)]
mod tests {
    use super::*;

    // The volume of a row: where it starts, and how many sectors it has.
    fn geometry(place: Option<(u64, u64)>, sector: u32) -> Option<Geometry> {
        place.map(|(start, sectors)| Geometry {
            start,
            sectors,
            sector,
        })
    }

    #[test]
    fn an_outer_volume_has_whole_sectors(rt: HostRuntime) {
        // by hand
        let rows = [
            (0, 512, None),
            (262_144, 512, None),
            (262_655, 512, None),
            (262_656, 512, Some(1)),
            (262_657, 512, None),
            (1_048_576, 512, Some(1536)),
            (1 << 40, 512, Some(2_147_483_136)),
            ((1 << 40) + 512, 512, None),
            (u64::MAX, 512, None),
            (262_656, 1024, None),
            (263_168, 1024, Some(1)),
            (263_680, 1024, None),
            (1 << 40, 1024, Some(1_073_741_568)),
            (263_168, 2048, None),
            (264_192, 2048, Some(1)),
            (265_216, 2048, None),
            (264_192, 4096, None),
            (266_240, 4096, Some(1)),
            (1_048_576, 4096, Some(192)),
            (1_049_088, 4096, None),
            (1 << 40, 4096, Some(268_435_392)),
            ((1 << 40) + 4096, 4096, None),
            (1_048_576, 0, None),
            (1_048_576, 256, None),
            (1_048_576, 511, None),
            (1_048_576, 513, None),
            (1_048_576, 3072, None),
            (1_048_576, 8192, None),
        ];
        for (len, sector, sectors) in rows {
            let want = geometry(sectors.map(|sectors| (131_072, sectors)), sector);
            assert_eq!(rt; outer_of(len, sector), want, "{len} with {sector}");
        }
    }

    #[test]
    fn a_hidden_volume_ends_where_the_backups_begin(rt: HostRuntime) {
        // by hand
        let rows = [
            (1_048_576, 0, 512, None),
            (1_048_576, 1, 512, None),
            (1_048_576, 511, 512, None),
            (1_048_576, 512, 512, Some((916_992, 1))),
            (1_048_576, 513, 512, None),
            (1_048_576, 262_144, 512, Some((655_360, 512))),
            (1_048_576, 262_656, 512, Some((654_848, 513))),
            (1_048_576, 786_432, 512, Some((131_072, 1536))),
            (1_048_576, 786_433, 512, None),
            (1_048_576, 786_944, 512, None),
            (1_048_576, u64::MAX - 511, 512, None),
            (1_048_576, 512, 1024, None),
            (1_048_576, 1024, 1024, Some((916_480, 1))),
            (1_048_576, 4096, 4096, Some((913_408, 1))),
            (1_048_576, 786_432, 4096, Some((131_072, 192))),
            (1_048_576, 790_528, 4096, None),
            (1_048_576, 512, 513, None),
            (262_144, 512, 512, None),
            (262_656, 512, 512, Some((131_072, 1))),
            (262_656, 1024, 512, None),
            (262_657, 512, 512, None),
            (264_192, 2048, 4096, None),
            (1 << 40, 512, 512, Some((1_099_511_496_192, 1))),
            ((1 << 40) + 512, 512, 512, None),
        ];
        for (len, size, sector, place) in rows {
            let want = geometry(place, sector);
            assert_eq!(rt;
                hidden_of(len, size, sector),
                want,
                "{size} in {len} with {sector}"
            );
        }
    }
}
