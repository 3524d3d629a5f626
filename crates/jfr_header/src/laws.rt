//! How chunks make a recording.
ghost use Rattle.std.specs.Prelude.{◌≡◌, ◌<◌, ◌↔◌, ◌^◌, ◌++◌, None};
ghost use Rattle.std.specs.List.{AllByRecursion};
ghost use Rattle.jfr_header.specs.Fronts.{front, Chunk, Whole};
ghost use Rattle.jfr_header.specs.Cuts.{Cuts, cut, joined, AreCut};

/// A whole chunk that starts below byte 2^40 is the next chunk, whatever follows it.
pub fn whole_chunk_is_found(chunk: &[u8], left: &[u8], start: u64, first: bool)
    requires whole { Whole chunk.now }
    requires early { start < 2 ^ 40 }
    ensures { front (chunk.now ++ left.now) start first ≡ Chunk chunk.now }
{}

/// Each chunk that is cut from a recording is whole.
pub fn chunks_are_whole(recording: &[u8], start: u64, first: bool)
    ensures { AllByRecursion Whole (cut recording.now start first).chunks }
{}

/// If a recording is cut to its end without a flaw, its chunks, one after another, are the recording.
pub fn chunks_are_the_recording(recording: &[u8], start: u64, first: bool)
    requires { (cut recording.now start first).flaw ≡ None }
    ensures { joined (cut recording.now start first).chunks ≡ recording.now }
{}

/// Cutting a whole recording gives the same chunks as taking them from the front one at a time.
pub fn chunks_are_cut_one_by_one(recording: &[u8], start: u64, first: bool)
    ghost cuts: { Cuts }
    ensures { AreCut cuts.chunks cuts.flaw recording.now start first ↔ (cut recording.now start first ≡ cuts) }
{}
