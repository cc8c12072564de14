//! What a server leaves of its clients.
ghost use Rattle.std.specs.Prelude.{◌≡◌, ◌≤◌, ◌+◌, ℕ, [], vec_capacity, IfOk};
ghost use Rattle.vol_server.specs.Laws.Lists.{AreEmpty, AreNext, HaveRoom};

use crate::task::{Service, Work};
use nbd_hand::HandEnd;
use nbd_wire::End;
use std::alloc::{AllocError, Global};
use vc_outside::Client;

/// What became of the clients. Item i of each list belongs to client i.
#[derive(Drop)]
pub struct Served<I, O> {
    /// How its session ended.
    pub ends: Vec<End>,
    /// How many replies were written whole.
    pub replies: Vec<u64>,
    /// The number under which its entries are.
    pub callers: Vec<u64>,
    /// The client itself, with what is left of its source.
    pub clients: Vec<Client<I, O>>,
}

/// The lists of what became of the clients, and of how their handshakes ended.
pub(crate) struct Lists<I, O> {
    pub(crate) served: Served<I, O>,
    pub(crate) hands: Vec<HandEnd>,
}

impl<I, O> Lists<I, O> {
    // Empty lists with room for so many clients.
    pub(crate) fn with_room(alloc: Global, count: usize) -> Result<Lists<I, O>, AllocError>
        ensures empty { IfOk result AreEmpty }
        ensures room { IfOk result (HaveRoom count) }
    {
        let ends = Vec::with_capacity(alloc, count)?;
        let replies = Vec::with_capacity(alloc, count)?;
        let callers = Vec::with_capacity(alloc, count)?;
        let hands = Vec::with_capacity(alloc, count)?;
        let clients = Vec::with_capacity(alloc, count)?;
        let served = Served {
            ends,
            replies,
            callers,
            clients,
        };
        Ok(Lists { served, hands })
    }

    // Lists the client of this work, if it has one, and its number.
    pub(crate) fn list(&mut self, work: Work<I, O>, caller: u64)
        requires room { HaveRoom 1 self.old }
        ensures next { AreNext self.old self.new work caller }
        ensures room { (k : ℕ) → HaveRoom (k + 1) self.old → HaveRoom k self.new }
    {
        match work {
            Work::Serve(service) => self.list_service(service, caller),
            Work::Help(_helper) => {}
        }
    }

    // Lists a client and its number.
    fn list_service(&mut self, service: Service<I, O>, caller: u64)
        requires room { HaveRoom 1 self.old }
        ensures next { AreNext self.old self.new (Work.Serve service) caller }
        ensures room { (k : ℕ) → HaveRoom (k + 1) self.old → HaveRoom k self.new }
    {
        let Service {
            bench: _,
            client,
            hand,
            end,
            replies,
        } = service;
        self.served.ends.push_reserved(end);
        self.served.replies.push_reserved(replies);
        self.served.callers.push_reserved(caller);
        self.served.clients.push_reserved(client);
        self.hands.push_reserved(hand);
    }

    // Frees the lists.
    pub(crate) fn destroy_empty(self)
        requires { AreEmpty self }
    {
        let Lists { served, hands: _ } = self;
        let Served {
            ends: _,
            replies: _,
            callers: _,
            clients,
        } = served;
        clients.destroy_empty();
    }
}
