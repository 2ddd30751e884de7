//! Machines that can be made. Plays are generic over them, since proofs about written-out types are costly.
use proto_pair::{Pair, Pair1};
use proto_pubsub::{Publish, Subscribe};
use proto_reqrep::{Reply, Request};
use proto_survey::Survey;
use sp_base::{NoMemory, Role};
use sp_history::setting::Options;
use sp_proto::Proto;
use std::alloc::Global;

/// A machine that can be made.
pub trait MadeMachine: Proto {
    /// A machine with the usual options of its role. A sub may have queues of room `queue`; for a pair it is the version
    /// of its protocol, which is 0 without it.
    fn made(alloc: Global, queue: Option<u32>) -> Result<Self, NoMemory>;
}

impl MadeMachine for Publish {
    fn made(alloc: Global, _queue: Option<u32>) -> Result<Publish, NoMemory> {
        Publish::new(alloc, Options::usual(Role::Pub, 0), false)
    }
}

impl MadeMachine for Subscribe {
    fn made(alloc: Global, queue: Option<u32>) -> Result<Subscribe, NoMemory> {
        let mut options = Options::usual(Role::Sub, 0);
        if let Some(queue) = queue {
            options.queue = queue;
        }
        Subscribe::new(alloc, options, false)
    }
}

impl MadeMachine for Pair {
    fn made(alloc: Global, queue: Option<u32>) -> Result<Pair, NoMemory> {
        match queue {
            None => Pair::new(alloc, Options::usual(Role::Pair0, 0), false),
            Some(_) => Pair1::new(alloc, Options::usual(Role::Pair1, 0), false),
        }
    }
}

impl MadeMachine for Survey {
    fn made(alloc: Global, _queue: Option<u32>) -> Result<Survey, NoMemory> {
        Survey::new(alloc, Options::usual(Role::Surveyor, 0), false)
    }
}

impl MadeMachine for Request {
    fn made(alloc: Global, _queue: Option<u32>) -> Result<Request, NoMemory> {
        Request::new(alloc, Options::usual(Role::Req, 0), false)
    }
}

impl MadeMachine for Reply {
    fn made(alloc: Global, _queue: Option<u32>) -> Result<Reply, NoMemory> {
        Reply::new(alloc, Options::usual(Role::Rep, 0), false)
    }
}
