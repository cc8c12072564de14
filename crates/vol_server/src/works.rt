//! The works of all threads: first the clients, then the helpers.
ghost use Rattle.std.specs.Prelude.{◌≡◌, ◌+◌, ◌≤◌, [], length, vec_capacity, All};
ghost use Rattle.std.specs.List.{flat_map};
ghost use Rattle.vol_server.specs.Laws.Tasks.{IsEmptyBench, IsReady, client_of, of_client};

use crate::task::{Service, Work};
use frag_pool::{Bench, Helper};
use nbd_hand::HandEnd;
use nbd_wire::End;
use vc_outside::Client;

/// Lines up the clients in their order, each with a bench, and then the helpers. So a client never waits for a helper
/// to end, also if no thread can be started.
pub(crate) fn line_up<I, O>(
    clients: Vec<Client<I, O>>,
    benches: Vec<Bench>,
    helpers: Vec<Helper>,
    works: &mut Vec<Work<I, O>>,
)
    requires empty { works.old.items ≡ [] }
    requires benches { (length benches.items ≡ length clients.items) × All IsEmptyBench benches.items }
    requires room { length clients.items + length helpers.items ≤ vec_capacity works.old }
    ensures clients { flat_map (of_client client_of) works.new.items ≡ clients.items }
    ensures ready { All IsReady works.new.items }
    ensures count { length works.new.items ≡ length clients.items + length helpers.items }
{
    line_up_clients(clients, benches, works);
    line_up_helpers(helpers, works);
}

fn line_up_clients<I, O>(
    clients: Vec<Client<I, O>>,
    benches: Vec<Bench>,
    works: &mut Vec<Work<I, O>>,
)
    requires empty { works.old.items ≡ [] }
    requires benches { (length benches.items ≡ length clients.items) × All IsEmptyBench benches.items }
    requires room { length clients.items ≤ vec_capacity works.old }
    ensures clients { flat_map (of_client client_of) works.new.items ≡ clients.items }
    ensures ready { All IsReady works.new.items }
    ensures count { length works.new.items ≡ length clients.items }
    ensures room { vec_capacity works.new ≡ vec_capacity works.old }
{
    let mut waiting = clients.into_iter();
    let mut free = benches.into_iter();
    let count = waiting.len();
    'clients: for n in 0..count {
        let client = waiting.next();
        let Some(client) = client else { unreachable!() };
        let bench = free.next();
        let Some(bench) = bench else { unreachable!() };
        works.push_reserved(Work::Serve(Service {
            bench,
            client,
            hand: HandEnd::Go,
            end: End::Done,
            replies: 0,
        }));
    }
    waiting.destroy_empty();
}

fn line_up_helpers<I, O>(helpers: Vec<Helper>, works: &mut Vec<Work<I, O>>)
    requires room { length works.old.items + length helpers.items ≤ vec_capacity works.old }
    requires ready { All IsReady works.old.items }
    ensures clients { flat_map (of_client client_of) works.new.items ≡ flat_map (of_client client_of) works.old.items }
    ensures ready { All IsReady works.new.items }
    ensures count { length works.new.items ≡ length works.old.items + length helpers.items }
{
    let mut waiting = helpers.into_iter();
    let count = waiting.len();
    'helpers: for n in 0..count {
        let helper = waiting.next();
        let Some(helper) = helper else { unreachable!() };
        works.push_reserved(Work::Help(helper));
    }
}
