//! Sleep for threads that help.
//!
//! ```text
//!   a helper      seen := news;  stop if all clients have ended;  help_one, and start anew if it helped;  wait_for_news(seen)
//!   tells         a push of fragments by a write, and whoever notes that a client has ended
//! ```
//!
//! So a helper sleeps only if nothing was pushed and no client ended since it looked. No clause rests on this.
use crate::volume::Volume;
use cipher_base::UnitCipher;
use std::sync::Wait;
use vc_outside::Store;

impl<S: Store, C: UnitCipher> Volume<S, C> {
    /// How many events a helper was told of.
    pub fn news(&self) -> u64 {
        self.news.count()
    }

    /// Sleeps until there was another event than those of `seen`. It may also return for no reason.
    pub fn wait_for_news<R: Wait>(&self, rt: &R, seen: u64) {
        self.news.wait(rt, seen);
    }

    /// Tells helpers to look again.
    pub fn tell_news(&self) {
        self.news.tell();
    }
}
