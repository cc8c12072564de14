//! Searches among the pending writes, and the state of a fragment.
ghost use Rattle.std.specs.Prelude.{◌≡◌, ◌<◌, ◌≤◌, ◌↔◌, IsTrue, true, Some, length, slice_get, slice_index_or, slice_set, vec_capacity, All, IfNone, IfSome};
ghost use Rattle.std.specs.List.{HoldsAt};
ghost use Rattle.sector_model.specs.History.{HasName};
ghost use Rattle.io_core.specs.Laws.Marked.{IsMarked};
ghost use Rattle.io_core.specs.State.{write_of};
ghost use Rattle.io_core.specs.declared.part.PartState.TheVariants.{Waiting};
ghost use Rattle.io_core.specs.declared.prepared.Prepared.{Prepared};

use crate::part::PartState;
use crate::prepared::Prepared;

// The place of the write of request `number` of `caller`.
pub(crate) fn place_of(pending: &[Prepared], caller: u64, number: u64) -> Option<usize>
    ensures none { IfNone result (All (λ p. ¬ HasName caller number (write_of p)) pending.now) }
    ensures bound { IfSome result (λ at. at < length pending.now) }
    ensures found { IfSome result (HoldsAt (λ p. HasName caller number (write_of p)) pending.now) }
{
    for (i, write) in pending.iter().enumerate() {
        if write.caller == caller && write.number == number {
            return Some(i);
        }
    }
    None
}

// Whether there is a fragment `index`, and it waits.
pub(crate) fn is_waiting(parts: &[PartState], index: u64) -> bool
    ensures waits { IsTrue result ↔ slice_get parts.now index ≡ Some Waiting }
    ensures bound { result ≡ true → index < length parts.now }
{
    matches!(parts.get(index as usize), Some(PartState::Waiting))
}

// Sets the state of fragment `index` of the write at `at`.
pub(crate) fn set_part(pending: &mut Vec<Prepared>, at: usize, index: usize, state: PartState)
    requires place { at < length pending.old.items }
    requires part { (d : Prepared) → index < length (slice_index_or pending.old.items at d).parts.items }
    ensures marked { (d : Prepared) → IsMarked at index state d pending.old.items pending.new.items }
    ensures capacity { vec_capacity pending.new ≡ vec_capacity pending.old }
{
    let write = &mut pending[at];
    write.parts[index] = state;
}
