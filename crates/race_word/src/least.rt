//! The word, and the calls on it.
ghost use Rattle.std.specs.Prelude.{◌≡◌, ◌≢◌, ◌≤◌, ◌<◌, ◌+◌, min, IfOk};
ghost use Rattle.race_word.specs.Known.{IsRunnerOf, newcomer, view};

use crate::names::Names;
use crate::plays::{Copied, Ended, Look, Offer};
use crate::runner::Runner;
use crate::view::{Key, Law, View, WORD};
use atomic_table::Table;
use std::alloc::{AllocError, Global};

/// The least number that was offered, as one word that threads share.
#[derive(Drop)]
pub struct Least<R: Names> {
    pub(crate) table: Table<(), View<R>, Key<R>, Law, Global>,
    pub key: Key<R>,
    ghost words: { table.shared.table_id.words ≡ 1 },
    ghost slots: { table.shared.table_id.slots ≡ 0 },
    ghost key_is: { table.shared.key ≡ key },
}

impl<R: Names + Drop> Least<R> {
    /// A word that is the limit, and its first runner. No other call takes memory.
    pub fn new(alloc: Global, names: R, limit: u64) -> Result<(Least<R>, Runner<R>), AllocError>
        ensures key { IfOk result (λ r. r.0.key ≡ record { names = names; limit = limit }) }
        ensures runner { IfOk result (λ r. IsRunnerOf r.0.table.shared.table_id r.0.key r.1.seat) }
        ensures first { IfOk result (λ r. view r.1.seat ≡ newcomer r.0.key) }
    {
        let key = Key { names, limit };
        let (table, seat) = Table::of_words(alloc, &[limit], &key)?;
        Ok((Least { table, key }, Runner { seat }))
    }
}

impl<R: Names> Least<R> {
    /// A runner for another thread, which knows what `r` does.
    pub fn runner(&self, r: &mut Runner<R>) -> Runner<R>
        requires runner { IsRunnerOf self.now.table.shared.table_id self.now.key r.old.seat }
        ensures runner { IsRunnerOf self.now.table.shared.table_id self.now.key r.new.seat }
        ensures new { IsRunnerOf self.now.table.shared.table_id self.now.key result.seat }
        ensures same { view r.new.seat ≡ view r.old.seat }
        ensures copied { view result.seat ≡ view r.old.seat }
    {
        let seat = self.table.shared.split_seat::<Copied>(&mut r.seat);
        Runner { seat }
    }

    /// Ends `other`.
    pub fn rejoin(&self, r: &mut Runner<R>, other: Runner<R>)
        requires runner { IsRunnerOf self.now.table.shared.table_id self.now.key r.old.seat }
        requires other { IsRunnerOf self.now.table.shared.table_id self.now.key other.seat }
        ensures runner { IsRunnerOf self.now.table.shared.table_id self.now.key r.new.seat }
        ensures same { view r.new.seat ≡ view r.old.seat }
    {
        let Runner { seat } = other;
        self.table.shared.join_seat::<Ended>(&mut r.seat, seat);
    }

    /// The word. It is the limit if nothing had been offered at that step.
    pub fn look(&self, r: &mut Runner<R>) -> u64
        requires runner { IsRunnerOf self.now.table.shared.table_id self.now.key r.old.seat }
        ensures runner { IsRunnerOf self.now.table.shared.table_id self.now.key r.new.seat }
        ensures step { (view r.new.seat).steps ≡ (view r.old.seat).steps + 1 }
        ensures found { (view r.new.seat).last ≡ result }
        ensures bound { (view r.new.seat).bound ≡ min (view r.old.seat).bound result }
        ensures never_rises { result ≤ (view r.old.seat).bound }
        ensures named { result ≢ self.now.key.limit → R.names self.now.key.names result }
    {
        self.table.shared.load::<Look>(&mut r.seat, WORD)
    }

    /// Offers a number, and returns the word from before: the word is then the lesser of the two.
    pub fn offer(&self, r: &mut Runner<R>, n: u64) -> u64
        requires runner { IsRunnerOf self.now.table.shared.table_id self.now.key r.old.seat }
        requires limit { n < self.now.key.limit }
        requires named { R.names self.now.key.names n }
        ensures runner { IsRunnerOf self.now.table.shared.table_id self.now.key r.new.seat }
        ensures step { (view r.new.seat).steps ≡ (view r.old.seat).steps + 1 }
        ensures found { (view r.new.seat).last ≡ result }
        ensures bound { (view r.new.seat).bound ≡ min (min (view r.old.seat).bound result) n }
        ensures never_rises { result ≤ (view r.old.seat).bound }
        ensures named { result ≢ self.now.key.limit → R.names self.now.key.names result }
    {
        self.table.shared.fetch_min::<Offer>(&mut r.seat, WORD, n)
    }
}
