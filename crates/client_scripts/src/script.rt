//! What one client asks, and how it is answered over a port.

ghost use Rattle.std.specs.Prelude.{◌^◌, ◌<◌, List};
ghost use Rattle.store_model.specs.Holds.{Hold};
ghost use Rattle.client_scripts.specs.Scripts.{HasAnswered, IsAnsweredOver};

use client_run::answer_request;
use io_edges::Gate;
use session_text::{Refusal, Reply, Request};
use span_types::Seq;
use std::alloc::Global;
use std::thread::Threads;
use store_state::Port;

/// What a client asks at once: a request, or a refusal that was made in reading.
pub type Item = Result<Request, Refusal>;

/// What one client asks, in order.
pub type Script = Seq<Item>;

/// What a client was answered.
#[derive(Drop)]
pub struct Answered {
    /// The replies to the first items of its script, in order.
    pub replies: Vec<Reply>,
    /// Whether there was no memory for the next reply. That item and the later ones weren't asked.
    pub starved: bool,
}

/// Answers the items of a script over a port, one after another, for the client with this number.
///
/// The place of a reply is reserved before its item is answered, so no event happens whose reply is lost. If there is no memory for
/// it the script ends there, and none of the later items makes an event.
pub fn answer_script<R: Threads + Sync, P: Port, G: Gate>(
    rt: &R,
    alloc: Global,
    port: &mut P,
    script: Script,
    client: u32,
    gate: &G,
) -> Answered
    requires holds { (held : List Hold) × P.meaning.holds port.old held }
    requires client { client < 2 ^ 31 }
    ensures { HasAnswered P.meaning port.old script result port.new }
{
    let mut replies = Vec::new(alloc);
    for item in script.into_vec() {
        if replies.reserve(1).is_err() {
            return Answered {
                replies,
                starved: true,
            };
        }
        let reply = answer_item(rt, alloc, port, item, client, gate);
        let Ok(()) = replies.push(reply) else {
            unreachable!()
        };
    }
    Answered {
        replies,
        starved: false,
    }
}

// Answers an item. A refusal that was made in reading is its own reply.
fn answer_item<R: Threads + Sync, P: Port, G: Gate>(
    rt: &R,
    alloc: Global,
    port: &mut P,
    item: Item,
    client: u32,
    gate: &G,
) -> Reply
    requires holds { (held : List Hold) × P.meaning.holds port.old held }
    requires client { client < 2 ^ 31 }
    ensures { IsAnsweredOver P.meaning port.old item result port.new }
{
    match item {
        Ok(request) => answer_request(rt, alloc, port, request, client, gate),
        Err(why) => Reply::Refused(why),
    }
}
