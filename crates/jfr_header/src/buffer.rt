//! A buffer for bytes that are read from the open input.
ghost use Rattle.std.specs.Prelude.{take, ◌≡◌, ◌≤◌, ◌<◌, ◌+◌, [], length, vec_len, Some, None, IfOk, OnOk, OnErr, IsErrOf, IsTrue, IfSome, IsSome};
ghost use Rattle.jfr_outside.specs.Counts.{Counts};
ghost use Rattle.jfr_header.specs.Taking.{Moved, MovedWithin, IfContentsKnown};

use jfr_outside::{Fault, Place};
use std::alloc::{AllocError, Global};
use std::marker::Model;

/// The least number of bytes by which a buffer grows, unless fewer are needed.
const MIN_GROWTH: usize = 65536;

/// Bytes that were read. Their memory only grows, and the next bytes are read straight into it.
#[derive(Drop)]
pub struct Buffer {
    memory: Vec<u8>,
    count: usize,
}

impl Model for Buffer {
    ghost use Rattle.std.specs.Prelude.{ℕ, List, take, ◌≤◌, vec_len};

    ghost Value = { List ℕ };

    ghost view = { λ b. take b.count b.memory.items };

    ghost invariant = { λ b. b.count ≤ vec_len b.memory };
}

/// Makes the vector longer than `count` bytes if it isn't: twice as long, or longer by `MIN_GROWTH` if that is more, but
/// never longer than `until`.
fn make_space(memory: &mut Vec<u8>, count: usize, until: usize) -> Result<(), AllocError>
    requires count { count ≤ vec_len memory.old }
    requires wanted { count < until }
    ensures kept { take count memory.new.items ≡ take count memory.old.items }
    ensures within { count ≤ vec_len memory.new }
    ensures more { OnOk result (count < vec_len memory.new) }
{
    if count < memory.len() {
        return Ok(());
    }
    let more = count.max(MIN_GROWTH).min(until - count);
    memory.reserve_exact(more)?;
    memory.resize(count + more, 0)
}

impl Buffer {
    /// An empty buffer. It allocates nothing.
    pub fn new(alloc: Global) -> Buffer
        ensures { result ≡ [] }
    {
        Buffer {
            memory: Vec::new(alloc),
            count: 0,
        }
    }

    /// The number of bytes.
    pub fn len(&self) -> usize
        ensures { result ≡ length self.now }
    {
        self.count
    }

    /// The bytes.
    pub fn as_slice(&self) -> &[u8]
        ensures { result.now ≡ self.now }
    {
        &self.memory[..self.count]
    }

    /// The bytes. They aren't copied.
    pub fn into_bytes(self) -> Vec<u8>
        ensures { result.items ≡ self }
    {
        let Buffer { mut memory, count } = self;
        memory.truncate(count);
        memory
    }

    /// Removes the bytes, and keeps their memory for the next ones.
    pub fn clear(&mut self)
        ensures { self.new ≡ [] }
    {
        self.count = 0;
    }

    /// Reads once from the open input, up to a length of `until`, and returns the number of bytes read: 0 at
    /// the input's end.
    pub fn read<P: Place>(&mut self, place: &mut P, until: usize) -> Result<usize, Fault>
        requires { length self.old < until }
        ensures moved { IfContentsKnown (P.state place.old) (P.state place.new) (Moved self.old self.new) }
        ensures prefix { take (length self.old) self.new ≡ self.old }
        ensures bound { length self.new ≤ until }
        ensures len { IfOk result (λ n. length self.new ≡ length self.old + n) }
        ensures err { OnErr result (self.new ≡ self.old) }
        ensures end { IfOk result (λ n. n ≡ 0 → IfSome (P.state place.new).contents (λ v. v.input ≡ Some [])) }
        ensures opened { OnOk result (IfSome (P.state place.new).contents (λ v. IsSome v.input)) }
        ensures fails { IsTrue ((P.state place.old).steady) → IsErrOf result Fault.Failed → IfSome (P.state place.old).contents (λ w. w.input ≡ None) }
        ensures cause { Counts result (P.state place.old).read_faults (P.state place.new).read_faults }
        ensures writes { (P.state place.new).write_faults ≡ (P.state place.old).write_faults }
        ensures steady { (P.state place.new).steady ≡ (P.state place.old).steady }
    {
        make_space(&mut self.memory, self.count, until)?;
        let most = self.memory.len().min(until);
        let count = place.read(&mut self.memory[self.count..most])?;
        self.count += count;
        Ok(count)
    }

    /// Reads until the buffer has `until` bytes, or the input ends. Fails if a read fails or memory runs out;
    /// after a failed read the buffer keeps what was read before.
    pub fn fill<P: Place>(&mut self, place: &mut P, until: usize) -> Result<(), Fault>
        requires { length self.old ≤ until }
        ensures ok { OnOk result (IfContentsKnown (P.state place.old) (P.state place.new) (Moved self.old self.new)) }
        ensures prefix { take (length self.old) self.new ≡ self.old }
        ensures bound { OnOk result (length self.new ≤ until) }
        ensures end { OnOk result (length self.new < until → IfSome (P.state place.new).contents (λ v. v.input ≡ Some [])) }
        ensures opened { OnOk result (length self.old < until → IfSome (P.state place.new).contents (λ v. IsSome v.input)) }
        ensures failed { IsErrOf result Fault.Failed → (length self.new < until) × IfContentsKnown (P.state place.old) (P.state place.new) (Moved self.old self.new) }
        ensures fails { IsTrue ((P.state place.old).steady) → IsErrOf result Fault.Failed → IfSome (P.state place.old).contents (λ w. w.input ≡ None) }
        ensures memory { IsErrOf result Fault.Memory → IfContentsKnown (P.state place.old) (P.state place.new) (MovedWithin self.old until) }
        ensures cause { Counts result (P.state place.old).read_faults (P.state place.new).read_faults }
        ensures writes { (P.state place.new).write_faults ≡ (P.state place.old).write_faults }
        ensures steady { (P.state place.new).steady ≡ (P.state place.old).steady }
    {
        'reads: while self.len() < until {
            if self.read(place, until)? == 0 {
                return Ok(());
            }
        }
        Ok(())
    }
}
