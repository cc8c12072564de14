//! What a core stands for: an opening state, and a history since then.
ghost use Rattle.io_core.specs.Sound.{Sound};

use crate::state::Core;
use cipher_base::UnitCipher;
use hist_standing::Standing;
use sector_model::Entry;
use vc_outside::Store;

impl<S: Store, C: UnitCipher> Standing for Core<S, C> {
    type Entry = Entry;

    ghost stands = { Sound ⟦<S as Store>⟧ ⟦<C as UnitCipher>⟧ };

    ghost number = { λ e. e.caller };
}
