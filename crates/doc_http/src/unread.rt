//! The bytes of a connection that no reply has answered yet.

ghost use Rattle.std.specs.Prelude.{◌≡◌, ◌++◌, ◌≤◌, [], length, drop, IfOk, OnOk, OnErr};
ghost use Rattle.doc_http.specs.Requests.{IsNext, BeginsWithRequest, UsesAtMost};

use crate::progress::Progress;
use crate::request::Next;
use doc_http_queue::queue::ByteQueue;
use doc_page_parts::failure::Memory;
use doc_page_parts::heap::Heap;
use std::fmt;
use std::fmt::Debug;
use std::marker::Model;

/// The unread bytes of a connection. Contracts see them as a list.
///
/// Taking many requests moves each byte a bounded number of times. What the bytes begin with is read on from where the last
/// reading of it came to.
#[derive(Drop)]
pub struct Unread {
    heap: Heap,
    bytes: ByteQueue,
    progress: Progress,
}

impl Model for Unread {
    ghost use Rattle.std.specs.Prelude.{ℕ, List as Seq};
    ghost use Rattle.doc_http.specs.KnowledgeSteps.{Knows};

    ghost Value = { Seq ℕ };

    ghost view = { λ u. u.bytes };

    ghost invariant = { λ u. Knows u.progress u.bytes };
}

impl Unread {
    /// No bytes. Requests are read into memory of this heap.
    pub fn new(heap: Heap) -> Self
        ensures { result ≡ [] }
    {
        Unread {
            heap,
            bytes: ByteQueue::new(heap),
            progress: Progress::new(),
        }
    }

    pub fn get(&self) -> &[u8]
        ensures { result.now ≡ self.now }
    {
        self.bytes.get()
    }

    /// Adds bytes at the end.
    pub fn push(&mut self, bytes: &[u8]) -> Result<(), Memory>
        ensures ok { OnOk result (self.new ≡ self.old ++ bytes.now) }
        ensures err { OnErr result (self.new ≡ self.old) }
    {
        self.bytes.push(bytes)?;
        Ok(())
    }

    /// What the bytes begin with, as `next_request` has it. Bytes that an earlier call looked at are not
    /// looked at again, but for the head of a request that is whole: over all calls, while nothing is taken, the time is
    /// linear in the bytes, however they were cut.
    pub fn next_request(&mut self) -> Result<Next, Memory>
        ensures found { IfOk result (λ next. IsNext self.old next) }
        ensures within { IfOk result (UsesAtMost (length self.old)) }
        ensures memory { OnErr result (BeginsWithRequest self.old) }
        ensures same { self.new ≡ self.old }
    {
        self.progress.next(self.heap, self.bytes.get())
    }

    /// Takes bytes from the front.
    pub fn take_front(&mut self, count: usize)
        requires { count ≤ length self.old }
        ensures { self.new ≡ drop count self.old }
    {
        self.bytes.take_front(count);
        self.progress = Progress::new();
    }

    /// Drops all bytes, and gives their room back.
    pub fn clear(&mut self)
        ensures { self.new ≡ [] }
    {
        self.bytes.clear();
        self.progress = Progress::new();
    }
}

impl Debug for Unread {
    fn fmt<W: fmt::Write>(&self, f: &mut fmt::Formatter<W>) -> fmt::Result {
        self.get().fmt(f)
    }
}
