//! A volume, its geometry, and whether a request is in it.
ghost use Rattle.std.specs.Prelude.{◌≡◌, ◌+◌, ◌*◌, ◌/◌, ◌≤◌, ◌↔◌, IsTrue};
ghost use Rattle.sector_model.specs.Array.{Fits, sectors_of};
ghost use Rattle.io_queue.specs.Pass.{IsVolume, shape};

use crate::signal::Signal;
use cipher_base::UnitCipher;
use hist_lock::HistLock;
use io_core::Core;
use vc_layout::Geometry;
use vc_outside::Store;

/// A volume that threads share, each by a pass of its own.
#[derive(Drop)]
pub struct Volume<S: Store, C: UnitCipher> {
    pub(crate) lock: HistLock<Core<S, C>>,
    pub(crate) cipher: C,
    pub(crate) geometry: Geometry,
    /// Tells when writes end.
    pub(crate) ends: Signal,
    /// Tells when helpers deposit fragments.
    pub(crate) deposits: Signal,
    /// Tells when fragments are pushed, and when clients end.
    pub(crate) news: Signal,
    ghost place: { IsVolume geometry },
}

impl<S: Store, C: UnitCipher> Volume<S, C> {
    /// The geometry that it was opened with.
    pub fn geometry(&self) -> Geometry
        ensures { result ≡ self.now.geometry }
    {
        self.geometry
    }

    // How many sectors these bytes are.
    pub(crate) fn sectors_of(&self, bytes: &[u8]) -> u64
        ensures { result ≡ sectors_of (shape self.now.geometry) bytes.now }
    {
        let units = u64::from(self.geometry.sector) / 512;
        bytes.len() as u64 / 512 / units
    }

    // Whether `count` sectors from `first` on are in the volume.
    pub(crate) fn fits(&self, first: u64, count: u64) -> bool
        ensures { IsTrue result ↔ Fits (shape self.now.geometry) first count }
    {
        first <= self.geometry.sectors && count <= self.geometry.sectors - first
    }

    // The container's data unit with which the sector `first` begins.
    pub(crate) fn unit_of(&self, first: u64) -> u64
        requires { first ≤ self.now.geometry.sectors }
        ensures { result ≡ self.now.geometry.start / 512 + self.now.geometry.sector / 512 * first }
    {
        self.geometry.start / 512 + u64::from(self.geometry.sector) / 512 * first
    }
}
