// What waits while an expression is read: a stack, the latest on top.
ghost use Rattle.std.specs.Prelude.{◌≡◌, ◌<◌, [], ◌∷◌, length, IfOk};
ghost use Rattle.std.specs.Option.{option_map};
ghost use Rattle.reading.specs.Waiting.{waiting, waits_of, first, rest, last_function, begins};
ghost use Rattle.reading.specs.Yard.{site_of, stands, waiting_on, HasRoom, SameLoans};

use crate::reader::{Pending, Reader};
use crate::reading::Reading;
use grammar::Due;
use std::alloc::{AllocError, Global};
use tokens::MAX_TOKENS;

impl Reader {
    // A reader with memory for every expression, or the error that there is not so much.
    pub fn new(heap: Global) -> Result<Reader, AllocError>
        ensures { IfOk result (λ reader. waiting reader ≡ []) }
    {
        let pending = Vec::with_capacity(heap, MAX_TOKENS)?;
        Ok(Reader { pending })
    }

    // Nothing waits any more.
    pub(crate) fn clear(&mut self)
        ensures { waiting self.new ≡ [] }
    {
        self.pending.clear();
    }

    // This waits on top.
    pub(crate) fn push(&mut self, pending: Pending)
        requires { length (waiting self.old) < 1024 }
        ensures { waiting self.new ≡ waits_of pending ∷ waiting self.old }
    {
        self.pending.push_reserved(pending);
    }

    // Takes what is on top off, and answers it, or none if nothing waits.
    pub(crate) fn pop(&mut self) -> Option<Pending>
        ensures answer { option_map waits_of result ≡ first (waiting self.old) }
        ensures after { waiting self.new ≡ rest (waiting self.old) }
    {
        self.pending.pop()
    }

    // What is on top, or none if nothing waits.
    pub(crate) fn top(&self) -> Option<Pending>
        ensures { option_map waits_of result ≡ first (waiting self.now) }
    {
        self.pending.last().copied()
    }

    // The function of the operator on top, or none if a bracket or nothing is there.
    pub(crate) fn last_function(&self) -> Option<u8>
        ensures { result ≡ last_function (waiting self.now) }
    {
        self.top()?.function
    }
}

impl<N> Reading<'_, N> {
    // The function's operator, or a bracket, waits for its right operand, which is due next.
    pub(crate) fn wait(&mut self, function: Option<u8>) -> Due
        requires { HasRoom (site_of self.old) }
        ensures state { stands result (site_of self.new) ≡ stands Due.Operand (waiting_on function (site_of self.old)) }
        ensures same { SameLoans self.old self.new }
    {
        let from = self.at;
        self.reader.push(Pending { function, from });
        Due::Operand
    }

    // Where the nodes of the current operand begin.
    pub(crate) fn begins(&self) -> usize
        ensures { result ≡ begins self.now.mark (waiting self.now.reader.now) }
    {
        self.reader.top().map_or(self.mark, |pending| pending.from)
    }
}
