//! Bytes seen as data units.
use std::marker::Model;

/// Whole data units that are only read. Contracts see the bytes.
#[derive(Drop)]
pub struct View<'a> {
    bytes: &'a [u8],
}

impl<'a> Model for View<'a> {
    ghost use Rattle.std.specs.Prelude.{List, ℕ};

    ghost Value = { List ℕ };

    ghost view = { λ v. v.bytes.now };
}

impl<'a> View<'a> {
    ghost use Rattle.std.specs.Prelude.{◌≡◌, ◌+◌, ◌*◌, ◌/◌, ◌%◌, ◌<◌, ◌≤◌, length, take, drop};
    ghost use Rattle.vc_base.specs.Bytes.{piece};

    /// A view of these bytes.
    pub fn new(bytes: &'a [u8]) -> View<'a>
        requires { length bytes.now % 512 ≡ 0 }
        ensures { result ≡ bytes.now }
    {
        View { bytes }
    }

    /// Unit `i`, counted from 0. It is lent as long as the bytes are, and not only as the view.
    pub fn sector(&self, i: u64) -> &'a [u8]
        requires { i < length self.now / 512 }
        ensures { result.now ≡ piece 512 i self.now }
    {
        self.part(i, 1)
    }

    /// `count` units from unit `first` on, lent as long as the bytes are.
    pub fn part(&self, first: u64, count: u64) -> &'a [u8]
        requires { first + count ≤ length self.now / 512 }
        ensures { result.now ≡ take (512 * count) (drop (512 * first) self.now) }
    {
        let bytes = self.bytes;
        let start = 512 * first as usize;
        &bytes[start..start + 512 * count as usize]
    }
}

#[cfg(test)]
mod tests {
    use super::*;

    // The view ends here, and what it lent lives on.
    fn second_unit(bytes: &[u8; 1024]) -> &[u8] {
        View::new(bytes).sector(1)
    }

    #[test]
    fn units_are_lent_in_their_places(rt: HostRuntime) {
        let mut bytes = [0; 1024];
        bytes[511] = 1;
        bytes[512] = 2;
        let view = View::new(&bytes);
        assert_eq!(rt; view.sector(0).last().copied(), Some(1));
        assert_eq!(rt; view.sector(1).first().copied(), Some(2));
        assert_eq!(rt; view.part(0, 2).len(), 1024);
        assert_eq!(rt; view.part(2, 0).len(), 0);
        assert_eq!(rt; second_unit(&bytes).first().copied(), Some(2));
    }
}
