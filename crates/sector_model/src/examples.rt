//! Small histories, legal and not, which show what the definitions say.
ghost use Rattle.std.specs.Prelude.{[], ◌∷◌};
ghost use Rattle.sector_model.specs.Legal.{IsOrdered, IsTold, Legal};
ghost use Rattle.sector_model.specs.Laws.Examples.{beyond, by, deny, done, fail, filled, flush, lost, put, read, shut, small, zeros};
ghost use Rattle.sector_model.specs.declared.entry.Event.TheVariants.{Lost};

/// These histories of a volume of eight sectors are legal. Its last two sectors are protected, and its
/// bytes are 0. `put(k, first, n, x)` puts `n` sectors of bytes `x` by request `k`.
pub fn legal_histories()
    ensures a_read_sees_what_was_put { Legal small zeros
        (put 0 2 1 9 ∷ done 0 2 1 ∷ read 1 2 1 9 ∷ read 2 3 1 0 ∷ []) }
    ensures a_read_beside_an_open_write { Legal small zeros (put 0 2 1 9 ∷ read 1 3 1 0 ∷ done 0 2 1 ∷ []) }
    ensures a_read_sees_what_a_failed_write_left { Legal small zeros
        (put 0 2 1 9 ∷ lost 0 2 1 5 ∷ read 1 2 1 5 ∷ []) }
    ensures writes_end_in_any_order { Legal small zeros
        (put 0 2 1 9 ∷ put 1 3 1 8 ∷ done 1 3 1 ∷ done 0 2 1 ∷ []) }
    ensures a_number_is_used_again { Legal small zeros
        (put 0 2 1 9 ∷ done 0 2 1 ∷ put 0 2 1 8 ∷ done 0 2 1 ∷ []) }
    ensures a_denial_freezes { Legal small zeros (deny 0 5 2 ∷ shut 1 0 1 ∷ read 2 6 1 0 ∷ []) }
    ensures an_open_write_ends_after_a_denial { Legal small zeros (put 0 2 1 9 ∷ deny 1 7 1 ∷ done 0 2 1 ∷ []) }
    ensures refusals_and_flushes { Legal small zeros (beyond 0 7 2 ∷ fail 1 0 1 ∷ fail 2 0 0 ∷ flush 3 ∷ []) }
{}

/// These aren't. The entry that breaks a rule is the last one.
pub fn illegal_histories()
    ensures a_read_of_old_data { ¬ Legal small zeros (put 0 2 1 9 ∷ done 0 2 1 ∷ read 1 2 1 0 ∷ []) }
    ensures a_read_of_an_open_write { ¬ Legal small zeros (put 0 2 1 9 ∷ read 1 2 1 9 ∷ []) }
    ensures a_read_past_the_end { ¬ Legal small zeros (read 0 7 2 0 ∷ []) }
    ensures a_put_over_an_open_write { ¬ Legal small zeros (put 0 2 2 9 ∷ put 1 3 1 8 ∷ []) }
    ensures a_put_under_an_open_name { ¬ Legal small zeros (put 0 2 1 9 ∷ put 0 4 1 8 ∷ []) }
    ensures a_put_of_a_protected_sector { ¬ Legal small zeros (put 0 5 2 9 ∷ []) }
    ensures a_put_after_a_denial { ¬ Legal small zeros (deny 0 5 2 ∷ put 1 0 1 9 ∷ []) }
    ensures a_denial_of_nothing_protected { ¬ Legal small zeros (deny 0 4 2 ∷ []) }
    ensures a_second_denial { ¬ Legal small zeros (deny 0 5 2 ∷ deny 1 5 2 ∷ []) }
    ensures a_refusal_before_any_denial { ¬ Legal small zeros (shut 0 0 1 ∷ []) }
    ensures an_end_without_a_put { ¬ Legal small zeros (done 0 2 1 ∷ []) }
    ensures a_second_end { ¬ Legal small zeros (put 0 2 1 9 ∷ done 0 2 1 ∷ done 0 2 1 ∷ []) }
    ensures an_end_of_another_count { ¬ Legal small zeros (put 0 2 1 9 ∷ done 0 2 2 ∷ []) }
    ensures a_loss_of_no_fragment { ¬ Legal small zeros (put 0 2 1 9 ∷ by 0 (Lost 2 (filled 1 9) []) ∷ []) }
    ensures a_range_within_the_volume { ¬ Legal small zeros (beyond 0 7 1 ∷ []) }
{}
