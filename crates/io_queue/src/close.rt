//! The end of a volume.
ghost use Rattle.std.specs.Prelude.{◌≡◌, ◌↔◌, All, Contains, IfErr, IfOk, IsOk};
ghost use Rattle.hist_lock.specs.Known.{closed, IsWhole, numbers_of, view};
ghost use Rattle.io_queue.specs.Closed.{IsLeft};
ghost use Rattle.io_queue.specs.Pass.{IsPass, NothingOpen};

use crate::volume::Volume;
use cipher_base::UnitCipher;
use hist_lock::Pass;
use io_core::Core;
use vc_outside::Store;

impl<S: Store, C: UnitCipher> Volume<S, C> {
    /// Gives the store back, if the pass has the whole share: then every other pass has ended in it, or in one
    /// that did. The pass that comes back has seen the whole history, and nothing of it is pending. Otherwise
    /// nothing has changed. It waits for nobody.
    pub fn close(
        self,
        pass: Pass<Core<S, C>>,
    ) -> Result<(S, Pass<Core<S, C>>), (Volume<S, C>, Pass<Core<S, C>>)>
        requires pass { IsPass self.lock.table.shared.table_id self.geometry self.cipher pass.seat }
        requires open { NothingOpen (view pass.seat) }
        ensures whole { IsOk result ↔ IsWhole (view pass.seat) }
        ensures pass { IfOk result (λ r. view r.1.seat ≡ closed (view pass.seat)) }
        ensures left { IfOk result (λ r. IsLeft ⟦<S as Store>⟧ ⟦<C as UnitCipher>⟧ (view r.1.seat) r.0) }
        ensures callers { IfOk result (λ r. All (λ e. Contains (numbers_of (view r.1.seat)) e.caller) (view r.1.seat).seen) }
        ensures err { IfErr result (λ r. (r.0.lock ≡ self.lock) × (r.0.geometry ≡ self.geometry)
            × (r.0.cipher ≡ self.cipher) × (r.0.ends ≡ self.ends) × (r.0.deposits ≡ self.deposits) × (r.0.news ≡ self.news)
            × (r.1.seat.table_id ≡ pass.seat.table_id) × (view r.1.seat ≡ view pass.seat)) }
    {
        let Volume {
            lock,
            cipher,
            geometry,
            ends,
            deposits,
            news,
        } = self;
        match lock.close(pass) {
            Ok((core, pass)) => Ok((core.into_store(), pass)),
            Err((lock, pass)) => {
                let volume = Volume {
                    lock,
                    cipher,
                    geometry,
                    ends,
                    deposits,
                    news,
                };
                Err((volume, pass))
            }
        }
    }
}
