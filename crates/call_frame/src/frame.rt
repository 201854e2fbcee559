//! A function that runs.

ghost use Rattle.std.specs.Prelude.{◌≡◌, ◌+◌, ◌<◌, ◌≤◌, ◌^◌, ◌↔◌, ◌++◌, ◌∷◌, [], IsTrue, IfOk, OnErr, OnOk, drop, false, length, take};
ghost use Rattle.bytecode.specs.Effects.{below};
ghost use Rattle.bytecode.specs.Machine.{begun, goes_on};
ghost use Rattle.call_frame.specs.Steps.{ahead};

use bytecode::WordKind;
use operands::kinds::{fit, fit_one, same_words};
use std::alloc::{AllocError, Global};
use std::marker::Model;
use word::value::Word;

/// A function that runs: its number, the pc of its next instruction, its locals and its operand stack.
pub struct Frame {
    pub(crate) function: usize,
    pub(crate) place: usize,
    pub(crate) locals: Vec<Word>,
    pub(crate) stack: Vec<Word>,
}

impl Drop for Frame {
    fn drop(self) {
        let Frame {
            function: _,
            place: _,
            locals,
            stack,
        } = self;
        drop(locals);
        drop(stack);
    }
}

impl Model for Frame {
    ghost use Rattle.std.specs.Prelude.{[]};
    ghost use Rattle.bytecode.specs.Machine.{Frame as FrameValue};

    ghost Value = { FrameValue };

    ghost view = { λ f. record { function = f.function; place = f.place; locals = f.locals.items; stack = f.stack.items; told = [] } };
}

/// A frame of nothing, without capacity for words yet.
pub fn empty(alloc: Global) -> Frame
    ensures { result ≡ record { function = 0; place = 0; locals = []; stack = []; told = [] } }
{
    Frame {
        function: 0,
        place: 0,
        locals: Vec::new(alloc),
        stack: Vec::new(alloc),
    }
}

/// A function at its first instruction.
pub fn begin(
    alloc: Global,
    locals: &[WordKind],
    function: usize,
    args: &[Word],
) -> Result<Frame, AllocError>
    ensures { IfOk result (λ frame. frame ≡ begun locals.now function args.now) }
{
    let mut frame = empty(alloc);
    frame.restart(locals, function, args)?;
    Ok(frame)
}

impl Frame {
    /// Becomes this function at its first instruction, in its own buffers. If memory runs out, its contents are unspecified.
    pub fn restart(
        &mut self,
        locals: &[WordKind],
        function: usize,
        args: &[Word],
    ) -> Result<(), AllocError>
        ensures { OnOk result (self.new ≡ begun locals.now function args.now) }
    {
        fit(&mut self.locals, locals, args)?;
        self.stack.clear();
        self.function = function;
        self.place = 0;
        Ok(())
    }

    /// Calls a function with the words from `at` of the stack on, and waits after the call. If memory runs out, the contents of
    /// `called` are unspecified.
    #[inline(always)]
    pub fn enter(
        &mut self,
        called: &mut Frame,
        locals: &[WordKind],
        function: usize,
        at: usize,
    ) -> Result<(), AllocError>
        requires place { self.old.place + 1 < 2 ^ 64 }
        requires at { at ≤ length self.old.stack }
        ensures waiting { OnOk result (self.new ≡ goes_on self.old (take at self.old.stack)) }
        ensures called { OnOk result (called.new ≡ begun locals.now function (drop at self.old.stack)) }
        ensures err { OnErr result (self.new ≡ self.old) }
    {
        fit(&mut called.locals, locals, &self.stack[at..])?;
        called.stack.clear();
        called.function = function;
        called.place = 0;
        self.stack.truncate(at);
        self.place += 1;
        Ok(())
    }

    /// Calls a function with an int, and waits at `next`. If memory runs out, the contents of `called` are unspecified.
    #[inline(always)]
    pub fn enter_with(
        &mut self,
        called: &mut Frame,
        locals: &[WordKind],
        function: usize,
        number: i64,
        next: usize,
    ) -> Result<(), AllocError>
        ensures waiting { OnOk result (self.new ≡ ahead self.old next self.old.stack) }
        ensures called { OnOk result (called.new ≡ begun locals.now function (Word.Int number ∷ [])) }
        ensures err { OnErr result (self.new ≡ self.old) }
    {
        fit_one(&mut called.locals, locals, Word::Int(number))?;
        called.stack.clear();
        called.function = function;
        called.place = 0;
        self.place = next;
        Ok(())
    }

    /// Takes the words of the stack of a frame that ended.
    #[inline(always)]
    pub fn take_results(&mut self, ended: &Frame) -> Result<(), AllocError>
        ensures ok { OnOk result (self.new ≡ record self.old { stack = self.old.stack ++ ended.now.stack }) }
        ensures err { OnErr result (self.new ≡ self.old) }
    {
        match ended.stack.as_slice() {
            [word] => self.stack.push(*word)?,
            words => self.stack.extend_from_slice(words)?,
        }
        Ok(())
    }
}

impl Frame {
    /// `told` of a frame itself is empty.
    #[inline(always)]
    pub fn quiet(&self)
        ensures { self.now.told ≡ [] }
    {
        let _place = self.place;
    }

    /// The number of its function.
    #[inline(always)]
    pub fn function(&self) -> usize
        ensures { result ≡ self.now.function }
    {
        self.function
    }

    /// The pc of its next instruction.
    #[inline(always)]
    pub fn place(&self) -> usize
        ensures { result ≡ self.now.place }
    {
        self.place
    }

    /// Its locals.
    #[inline(always)]
    pub fn locals(&self) -> &[Word]
        ensures { result.now ≡ self.now.locals }
    {
        self.locals.as_slice()
    }

    /// Its operand stack, the top last.
    #[inline(always)]
    pub fn stack(&self) -> &[Word]
        ensures { result.now ≡ self.now.stack }
    {
        self.stack.as_slice()
    }

    /// Pushes an int onto its operand stack.
    #[inline(always)]
    pub fn push_number(&mut self, number: i64) -> Result<(), AllocError>
        ensures ok { OnOk result (self.new ≡ record self.old { stack = self.old.stack ++ Word.Int number ∷ [] }) }
        ensures err { OnErr result (self.new ≡ self.old) }
    {
        self.stack.push(Word::Int(number))?;
        Ok(())
    }

    /// Pushes an int onto its operand stack and goes to `at`; returns false if out of memory.
    #[inline(always)]
    pub fn leave_at(&mut self, number: i64, at: usize) -> bool
        ensures left { IsTrue result → self.new ≡ ahead self.old at (self.old.stack ++ Word.Int number ∷ []) }
        ensures not { result ≡ false → self.new ≡ self.old }
    {
        match self.push_number(number) {
            Ok(_) => {
                self.place = at;
                true
            }
            Err(_) => false,
        }
    }

    /// Pushes words onto its operand stack; most often those are a received word and whether it was sent.
    #[inline(always)]
    pub fn push_all(&mut self, words: &[Word]) -> Result<(), AllocError>
        ensures ok { OnOk result (self.new ≡ record self.old { stack = self.old.stack ++ words.now }) }
        ensures err { OnErr result (self.new ≡ self.old) }
    {
        if let [first, second] = words
            && self.stack.capacity() - self.stack.len() >= 2
        {
            self.stack.push_reserved(*first);
            self.stack.push_reserved(*second);
            return Ok(());
        }
        self.stack.extend_from_slice(words)?;
        Ok(())
    }

    /// Drops `count` words of its operand stack, or all if there are fewer, and goes to `place`.
    #[inline(always)]
    pub fn drop_to(&mut self, count: usize, place: usize)
        ensures { self.new ≡ record self.old { place = place; stack = below count self.old.stack } }
    {
        let at = self.stack.len().saturating_sub(count);
        self.stack.truncate(at);
        self.place = place;
    }

    /// A copy of this frame.
    pub fn try_clone(&self, alloc: Global) -> Result<Frame, AllocError>
        ensures { IfOk result (λ frame. frame ≡ self.now) }
    {
        let locals = Vec::from_slice(alloc, self.locals.as_slice())?;
        let stack = Vec::from_slice(alloc, self.stack.as_slice())?;
        Ok(Frame {
            function: self.function,
            place: self.place,
            locals,
            stack,
        })
    }

    /// Whether the two frames are equal.
    pub fn is_same(&self, other: &Frame) -> bool
        ensures { IsTrue result ↔ (self.now ≡ other.now) }
    {
        self.function == other.function
            && self.place == other.place
            && same_words(self.locals.as_slice(), other.locals.as_slice())
            && same_words(self.stack.as_slice(), other.stack.as_slice())
    }
}
