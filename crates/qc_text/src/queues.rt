//! The replies that each actor told and that no command of the script has
//! taken yet.

ghost use Rattle.std.specs.Prelude.{◌≡◌, ◌∷◌, ◌++◌, [], ℕ, ◌<◌, OnOk, IfOk, length, drop, slice_get, slice_set};
ghost use Rattle.std.specs.Prelude.{slice_index_or};
ghost use Rattle.qc_text.specs.Replies.{told_of, reply_in};

use qc_list::OutOfMemory;
use qc_msg::{Entry, Reply, Step};
use std::alloc::Global;
use std::collections::VecDeque;
use std::marker::Model;

/// How many actors' numbers there may be.
const ACTORS: usize = 256;

/// The replies of one actor that no command has taken, oldest first.
#[derive(Drop)]
pub(crate) struct Queue {
    replies: VecDeque<Reply>,
}

impl Model for Queue {
    ghost use Rattle.std.specs.Prelude.{List};
    ghost use Rattle.qc_msg.specs.declared.reply.Reply.{Reply};

    ghost Value = { List Reply };

    ghost view = { λ q. q.replies.items };
}

impl Queue {
    /// No reply.
    fn new(alloc: Global) -> Queue
        ensures { result ≡ [] }
    {
        Queue {
            replies: VecDeque::new(alloc),
        }
    }

    /// Adds a reply, the newest one.
    fn push(&mut self, reply: Reply) -> Result<(), OutOfMemory>
        ensures { OnOk result (self.new ≡ self.old ++ reply ∷ []) }
    {
        self.replies.push_back(reply)?;
        Ok(())
    }

    /// Takes the oldest reply.
    fn take(&mut self) -> Option<Reply>
        ensures reply { result ≡ slice_get self.old 0 }
        ensures rest { self.new ≡ drop 1 self.old }
    {
        self.replies.pop_front()
    }
}

/// The queue of each actor, with no reply in it.
fn empty_queues(alloc: Global) -> Result<Vec<Queue>, OutOfMemory>
    ensures all { IfOk result (λ v. length v.items ≡ 256) }
    ensures empty { IfOk result (λ v. (a : ℕ) → slice_index_or v.items a [] ≡ []) }
{
    let mut queues = Vec::new(alloc);
    'queues: for _actor in 0..ACTORS {
        queues.push(Queue::new(alloc))?;
    }
    Ok(queues)
}

/// Adds a reply to an actor's queue.
fn add_reply(queues: &mut [Queue], actor: u8, reply: Reply) -> Result<(), OutOfMemory>
    requires { length queues.old ≡ 256 }
    ensures within { actor < 256 }
    ensures told { OnOk result (queues.new ≡ slice_set queues.old actor (slice_index_or queues.old actor []
        ++ reply ∷ [])) }
{
    queues[actor as usize].push(reply)
}

/// Takes the oldest reply of an actor's queue.
pub(crate) fn take_reply(queues: &mut [Queue], actor: u8) -> Option<Reply>
    requires { length queues.old ≡ 256 }
    ensures within { actor < 256 }
    ensures reply { result ≡ slice_get (slice_index_or queues.old actor []) 0 }
    ensures rest { queues.new ≡ slice_set queues.old actor (drop 1 (slice_index_or queues.old actor [])) }
{
    queues[actor as usize].take()
}

/// The reply that a step told.
fn reply_in(step: &Step) -> Option<Reply>
    ensures { result ≡ reply_in step.now }
{
    match step {
        Step::Told(reply) => Some(*reply),
        _ => None,
    }
}

/// All that each actor told.
pub(crate) fn queues_of(alloc: Global, entries: &[Entry]) -> Result<Vec<Queue>, OutOfMemory>
    ensures all { IfOk result (λ v. length v.items ≡ 256) }
    ensures told { IfOk result (λ v. (a : ℕ) → a < 256 → slice_index_or v.items a [] ≡ told_of a entries.now) }
{
    let mut queues = empty_queues(alloc)?;
    add_replies(&mut queues, entries)?;
    Ok(queues)
}

/// Adds all replies of a history to empty queues.
fn add_replies(queues: &mut [Queue], entries: &[Entry]) -> Result<(), OutOfMemory>
    requires all { length queues.old ≡ 256 }
    requires empty { (a : ℕ) → slice_index_or queues.old a [] ≡ [] }
    ensures { OnOk result ((a : ℕ) → a < 256 → slice_index_or queues.new a [] ≡ told_of a entries.now) }
{
    'entries: for entry in entries {
        if let Some(reply) = reply_in(&entry.step) {
            add_reply(queues, entry.actor, reply)?;
        }
    }
    Ok(())
}
