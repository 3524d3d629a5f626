//! Scripts: calls that have to fail.
ghost use Rattle.std.specs.Prelude.{◌≡◌, [], ◌∷◌, ◌++◌, OnOk, OnErr};
ghost use Rattle.jfr_outside.specs.Scripts.{kind_of, is_due, passed, kept, kept_with, after_call};

use jfr_base::NoMemory;
use std::alloc::Global;
use std::marker::Model;

/// A kind of call on a place.
#[derive(Clone, Copy, Debug, PartialEq, Eq)]
pub enum Call {
    /// Opens an input.
    Open,
    /// Reads bytes of the input.
    Read,
    /// Creates an output.
    Create,
    /// Adds bytes to the output.
    Append,
    /// Finishes the output.
    Finish,
    /// Lists the files of a folder.
    List,
}

impl Call {
    /// A number for each kind, by which kinds are compared.
    fn kind(self) -> u8
        ensures { result ≡ kind_of self }
    {
        match self {
            Call::Open => 0,
            Call::Read => 1,
            Call::Create => 2,
            Call::Append => 3,
            Call::Finish => 4,
            Call::List => 5,
        }
    }
}

/// A call that has to fail. If it is an append or a write, at most `keep` of its bytes are kept.
#[derive(Clone, Copy)]
pub struct Script {
    /// The kind of the call.
    pub call: Call,
    /// Which call of its kind fails, counted from now on: 1 is the next one. 0 means that the call has failed
    /// already, or that no call will.
    pub left: u64,
    /// The most bytes of it that are kept.
    pub keep: usize,
}

impl Script {
    /// Whether the next call of this kind has to fail.
    fn is_due(&self, call: Call) -> bool
        ensures { result ≡ is_due call self.now }
    {
        if self.call.kind() != call.kind() {
            return false;
        }
        self.left == 1
    }

    /// The most bytes that the next call of this kind keeps, if this script or one before it makes it fail.
    /// `so_far` is the result for those before it.
    fn keep_with(&self, call: Call, so_far: Option<usize>) -> Option<usize>
        ensures { result ≡ kept_with call so_far self.now }
    {
        if !self.is_due(call) {
            return so_far;
        }
        match so_far {
            Some(keep) => Some(self.keep.min(keep)),
            None => Some(self.keep),
        }
    }

    /// Counts a call of this kind.
    fn pass(&mut self, call: Call)
        ensures { self.new ≡ passed call self.old }
    {
        if self.call.kind() == call.kind() {
            self.left = self.left.saturating_sub(1);
        }
    }
}

/// Calls that have to fail, in the order in which they were added.
#[derive(Drop)]
pub struct Scripts {
    scripts: Vec<Script>,
}

impl Model for Scripts {
    ghost use Rattle.std.specs.Prelude.{List};
    ghost use Rattle.jfr_outside.specs.declared.script.Script.{Script};

    ghost Value = { List Script };

    ghost view = { λ s. s.scripts.items };
}

impl Scripts {
    /// An empty list: no call has to fail.
    pub fn new(alloc: Global) -> Scripts
        ensures { result ≡ [] }
    {
        Scripts {
            scripts: Vec::new(alloc),
        }
    }

    /// Makes the nth call of this kind from now on fail, counted from 1, with at most `keep` bytes kept.
    pub fn add(&mut self, call: Call, nth: u64, keep: usize) -> Result<(), NoMemory>
        ensures ok { OnOk result (self.new ≡ self.old ++ record { call = call; left = nth; keep = keep } ∷ []) }
        ensures unchanged { OnErr result (self.new ≡ self.old) }
    {
        self.scripts.push(Script {
            call,
            left: nth,
            keep,
        })?;
        Ok(())
    }

    /// Counts a call of this kind. `Some` if it has to fail, with the most bytes that it keeps.
    pub fn pass(&mut self, call: Call) -> Option<usize>
        ensures due { result ≡ kept call self.old }
        ensures passed { self.new ≡ after_call call self.old }
    {
        let keep = self
            .scripts
            .iter()
            .fold(None, |so_far, script| script.keep_with(call, so_far));
        for script in self.scripts.iter_mut() {
            script.pass(call);
        }
        keep
    }
}
