ghost use Rattle.std.specs.Prelude.{◌≡◌, ◌-◌, ◌≤◌, None, is_some, IfSome, IfNone};
ghost use Rattle.std.specs.FinMap as map;
ghost use Rattle.plain_process.specs.Buffers.{filled_spans};
ghost use Rattle.plain_process.specs.Put.{CanTake, added_thread, after_threads, put, with_spans, word_of};
ghost use Rattle.plain_process.specs.Threads as words;
ghost use Rattle.plain_process.specs.Valid.{CanAdd};
ghost use Rattle.guest_proc.specs.Guests.{HasThread, with_threads, with_user};
ghost use Rattle.guest_threads.specs.Threads.{changed};
ghost use Rattle.plain_process.specs.Rows.Mappings.{with_memory};

use crate::guest::Guest;
use call_table::Request;
use plain_process::threads::added_thread;
use sys_abi::{Reply, Tid, Transfer};

impl Guest {
    /// The part after a call's answer. An exit's ends the thread, and a clone's may add one, into room that
    /// is there. Takes no memory.
    pub fn answer(&mut self, t: Tid, request: &Request, reply: Reply, transfer: &Transfer)
        requires writable { CanTake self.old.user.memory (filled_spans self.old.user.memory request.now) transfer.now }
        requires added { CanAdd self.old.user request.now reply }
        requires spare { IfSome (added_thread request.now reply) (λ _. 1 ≤ self.old.spare) }
        ensures user { self.new.user ≡ put self.old.user t.0 request.now reply transfer.now }
        ensures pid { self.new.pid ≡ self.old.pid }
        ensures spare { IfNone (added_thread request.now reply) (self.new.spare ≡ self.old.spare) }
        ensures taken { HasThread self.old.user t.0 → IfSome (added_thread request.now reply) (λ _. self.new.spare ≡ self.old.spare - 1) }
    {
        self.put(t, request, reply, transfer.as_slice());
    }

    /// The same, where the answer's bytes are these.
    pub(crate) fn put(&mut self, t: Tid, request: &Request, reply: Reply, bytes: &[u8])
        requires writable { CanTake self.old.user.memory (filled_spans self.old.user.memory request.now) bytes.now }
        requires added { CanAdd self.old.user request.now reply }
        requires spare { IfSome (added_thread request.now reply) (λ _. 1 ≤ self.old.spare) }
        ensures user { self.new.user ≡ put self.old.user t.0 request.now reply bytes.now }
        ensures pid { self.new.pid ≡ self.old.pid }
        ensures spare { IfNone (added_thread request.now reply) (self.new.spare ≡ self.old.spare) }
        ensures taken { HasThread self.old.user t.0 → IfSome (added_thread request.now reply) (λ _. self.new.spare ≡ self.old.spare - 1) }
    {
        if !self.has_thread(t) {
            return;
        }
        self.put_bytes(request, bytes);
        self.finish_call(t, word_of(reply));
        self.change_threads(t, request, reply);
    }

    /// Whether the process has this thread.
    pub fn has_thread(&self, t: Tid) -> bool
        ensures { result ≡ is_some (map.get self.now.user.threads t.0) }
    {
        self.group.contains(t)
    }

    /// Puts the bytes where the call asked for them.
    fn put_bytes(&mut self, request: &Request, bytes: &[u8])
        requires { CanTake self.old.user.memory (filled_spans self.old.user.memory request.now) bytes.now }
        ensures { self.new ≡ with_user self.old (with_memory self.old.user (with_spans self.old.user.memory (filled_spans self.old.user.memory request.now) bytes.now)) }
    {
        self.memory.fill(request, bytes);
    }

    /// A thread's call answers this word, if the thread is there.
    fn finish_call(&mut self, t: Tid, word: u32)
        ensures { self.new ≡ with_user self.old (with_threads self.old.user (changed self.old.user.threads t.0 (λ thread. words.after_call thread word))) }
    {
        self.group.finish_call(t, word);
    }

    /// What an answer does to the threads.
    #[tactic(auto, unfolding(plain_process::specs::Put::added_thread, plain_process::specs::Put::after_threads))]
    fn change_threads(&mut self, t: Tid, request: &Request, reply: Reply)
        requires thread { HasThread self.old.user t.0 }
        requires free { IfSome (added_thread request.now reply) (λ new. map.get self.old.user.threads new ≡ None) }
        requires spare { IfSome (added_thread request.now reply) (λ _. 1 ≤ self.old.spare) }
        ensures user { self.new.user ≡ after_threads self.old.user t.0 request.now reply }
        ensures pid { self.new.pid ≡ self.old.pid }
        ensures spare { IfNone (added_thread request.now reply) (self.new.spare ≡ self.old.spare) }
        ensures taken { IfSome (added_thread request.now reply) (λ _. self.new.spare ≡ self.old.spare - 1) }
    {
        match *request {
            Request::Exit { .. } => self.remove_thread(t),
            Request::Clone {
                flags,
                stack,
                tls,
                child_tid,
                ..
            } => {
                if let Some(new) = added_thread(request, reply) {
                    self.add_clone(t, new, flags, stack, tls, child_tid);
                }
            }
            _ => {}
        }
    }
}

/// The word that an answer puts into a0.
fn word_of(reply: Reply) -> u32
    ensures { result ≡ word_of reply }
{
    match reply {
        Reply::Value(value) => value,
        Reply::Error(e) => u32::from(e.0).wrapping_neg(),
    }
}
