//! How the clients ended.
ghost use Rattle.std.specs.Prelude.{◌≡◌, ◌<◌, IsTrue};
ghost use Rattle.drill_work.specs.Laws.Ended.{IsDone, IsDoneAt};

use drill_streams::are_done;
use nbd_wire::End;
use vc_outside::{SureSink, SureSource};
use vol_server::Served;

/// Whether each of the three clients was replied to twelve times, and each reply says that the request was done.
pub(crate) fn all_done(n: u64, served: &Served<SureSource, SureSink>) -> bool
    ensures first { IsTrue result → IsDoneAt n 0 served.now }
    ensures second { IsTrue result → IsDoneAt n 1 served.now }
    ensures third { IsTrue result → IsDoneAt n 2 served.now }
{
    is_done_at(n, 0, served) && is_done_at(n, 1, served) && is_done_at(n, 2, served)
}

fn is_done_at(n: u64, client: usize, served: &Served<SureSource, SureSink>) -> bool
    requires { client < 3 }
    ensures { IsTrue result → IsDoneAt n client served.now }
{
    let link = served.clients.get(client);
    let end = served.ends.get(client);
    let replies = served.replies.get(client);
    match (link, end, replies) {
        (Some(link), Some(end), Some(replies)) => {
            is_done(n, client as u64, *end, *replies, link.sink.bytes())
        }
        _ => false,
    }
}

fn is_done(n: u64, client: u64, end: End, replies: u64, sent: &[u8]) -> bool
    requires { client < 3 }
    ensures { IsTrue result → IsDone n client end replies sent.now }
{
    end == End::Done && replies == 12 && are_done(n, client, sent)
}
