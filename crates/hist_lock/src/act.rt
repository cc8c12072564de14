//! What a turn does to the value.
ghost use Rattle.std.specs.Prelude.{◌≡◌, ℕ, List, ◌++◌, All};

use hist_standing::Standing;

/// One atomic act on the value of a lock. It leaves its answer in its own fields.
pub trait Act<T: Standing> {
    /// For an opening state and a history: it may act there.
    ghost may: { Self → T → List T.Entry → Type 0 };

    /// For the act before and after, the caller's number and a list of entries: the act may add this list.
    ghost allows: { Self → Self → ℕ → List T.Entry → Type 0 };

    /// The entries that it adds: a function of the act and the value before, both after, and the caller's number.
    ghost adds: { Self → T → Self → T → ℕ → List T.Entry };

    /// It is called once in a turn. `caller` is the number of the pass.
    fn act(&mut self, value: &mut T, caller: u64)
        requires { (base : T) × (log : List T.Entry) × may self.old base log × T.stands base log value.old }
        ensures stands { (base : T) (log : List T.Entry) → may self.old base log → T.stands base log value.old
            → T.stands base (log ++ adds self.old value.old self.new value.new caller) value.new }
        ensures allowed { allows self.old self.new caller (adds self.old value.old self.new value.new caller) }
        ensures own { All (λ e. T.number e ≡ caller) (adds self.old value.old self.new value.new caller) };
}
