//! What is true of the bytes and the writes of every client.
ghost use Rattle.std.specs.Prelude.{◌≡◌, ℕ, ◌<◌, All, []};
ghost use Rattle.drill_streams.specs.Drill.{requests, stream, writes_of};
ghost use Rattle.drill_streams.specs.Done.{IsWriteIn};
ghost use Rattle.nbd_wire.specs.Frames.{Frames, frames};

use nbd_wire::End;

/// A server that reads the bytes of a client finds its requests in them, and then a disconnect.
pub fn streams_are_requests()
    ensures { (n c : ℕ) → c < 3
        → frames (stream n c) ≡ record { requests = requests n c; last = End.Done; unread = [] } }
{}

/// The writes of a client are whole sectors, and stay in the 3,072 sectors of that client.
pub fn writes_stay_with_their_client()
    ensures { (n c : ℕ) → All (IsWriteIn c) (writes_of n c) }
{}
