//! An open input in memory.
ghost use Rattle.std.specs.Prelude.{◌≡◌, ◌<◌, ◌≤◌, ◌↔◌, [], length, take, drop, vec_len};

/// The bytes of an input, some of which may have been read.
#[derive(Drop)]
pub struct Source {
    bytes: Vec<u8>,
    at: usize,
    ghost within: { at ≤ vec_len bytes },
}

impl Source {
    ghost use Rattle.jfr_outside.specs.Source.{unread_bytes};

    /// An input of which nothing was read yet.
    pub fn new(bytes: Vec<u8>) -> Source
        ensures { unread_bytes result ≡ bytes.items }
    {
        Source { bytes, at: 0 }
    }

    /// Reads the next bytes, at most `most`, and returns how many: 0 exactly at the end.
    pub fn take_into(&mut self, most: usize, into: &mut [u8]) -> usize
        requires room { 0 < length into.old }
        requires most { 0 < most }
        ensures bound { result ≤ length into.new }
        ensures most { result ≤ most }
        ensures left { unread_bytes self.new ≡ drop result (unread_bytes self.old) }
        ensures within { result ≤ length (unread_bytes self.old) }
        ensures bytes { take result into.new ≡ take result (unread_bytes self.old) }
        ensures end { (result ≡ 0) ↔ (unread_bytes self.old ≡ []) }
    {
        let left = self.bytes.len() - self.at;
        let count = left.min(most).min(into.len());
        into[..count].copy_from_slice(&self.bytes[self.at..self.at + count]);
        self.at += count;
        count
    }
}
