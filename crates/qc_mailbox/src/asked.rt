//! Queues of requests that an actor sent and that have no answer.

ghost use Rattle.std.specs.Prelude.{◌≡◌, ◌+◌, ◌≤◌, length};
ghost use Rattle.qc_script.specs.Requests.{has_request, requests_to, requests_to_others, with_lost, without_request};
ghost use Rattle.qc_mailbox.specs.Asked.{asked};
ghost use Rattle.qc_mailbox.specs.Queues.{items, spare};

use crate::queue::Queue;

/// A request that was sent.
#[derive(Clone, Copy)]
pub struct Asked {
    /// Its number.
    pub(crate) number: u32,
    /// Whom it went to.
    pub(crate) to: u8,
}

impl Queue<Asked> {
    /// Whether the request of a number is among these.
    pub(crate) fn has_request(&self, number: u32) -> bool
        ensures { result ≡ has_request (asked (items self.now)) number }
    {
        let mut place = 0;
        'requests: while place < self.queue.len() {
            if self.queue[place].number == number {
                return true;
            }
            place += 1;
        }
        false
    }

    /// Takes the request of a number away, wherever it is.
    pub(crate) fn remove_request(&mut self, number: u32)
        ensures requests { asked (items self.new) ≡ without_request (asked (items self.old)) number }
        ensures fewer { length (items self.new) ≤ length (items self.old) }
        ensures spare { spare self.old ≤ spare self.new }
    {
        self.queue.retain(|request| request.number != number);
    }

    /// The requests to an actor are lost: they go to the numbers of those that
    /// are, which have a place for each.
    pub(crate) fn lose(&mut self, actor: u8, lost: &mut Queue<u32>)
        requires { length (items self.old) ≤ spare lost.old }
        ensures requests { asked (items self.new) ≡ requests_to_others actor (asked (items self.old)) }
        ensures spare { spare self.old ≤ spare self.new }
        ensures lost { items lost.new ≡ with_lost (requests_to actor (asked (items self.old))) (items lost.old) }
        ensures used { spare lost.old + length (items self.new) ≤ spare lost.new + length (items self.old) }
    {
        let mut place = 0;
        'requests: while place < self.queue.len() {
            let request = self.queue[place];
            if request.to == actor {
                lost.put(request.number);
            }
            place += 1;
        }
        self.queue.retain(|request| request.to != actor);
    }
}
