//! The texts of stacks.
ghost use Rattle.std.specs.Prelude.{◌≡◌, ◌++◌, IfOk, OnOk, map, string_bytes};
ghost use Rattle.std.specs.List.{AllByRecursion};
ghost use Rattle.jfr_value.specs.Nodes.{IsValue, node_of};
ghost use Rattle.jfr_stacks.specs.Frames.{IsChunkValue};
ghost use Rattle.jfr_stacks.specs.Roles.{WritesFor};
ghost use Rattle.jfr_stacks.specs.Texts.{stack_text, trace_text, written};

use crate::frame_writer::FrameWriter;
use crate::frames::frames_in;
use jfr_base::NoMemory;
use jfr_chunk::Chunk;
use jfr_value::Node;
use std::alloc::Global;

/// Writes the texts of the stacks of one chunk, one at a time.
#[derive(Drop)]
pub(crate) struct StackWriter {
    pub(crate) alloc: Global,
    pub(crate) frames: FrameWriter,
    pub(crate) text: String,
}

impl StackWriter {
    /// A writer for the stacks of this chunk.
    pub(crate) fn new(alloc: Global, chunk: &Chunk<'_>) -> Result<StackWriter, NoMemory>
        ensures ready { IfOk result (λ writer. WritesFor chunk.now writer.frames) }
    {
        let frames = FrameWriter::new(alloc, chunk)?;
        Ok(StackWriter {
            alloc,
            frames,
            text: String::new(alloc),
        })
    }

    /// The allocator.
    pub(crate) fn alloc(&self) -> Global {
        self.alloc
    }

    /// The last text.
    pub(crate) fn as_str(&self) -> &str
        ensures { result.now ≡ string_bytes self.now.text }
    {
        self.text.as_str()
    }

    /// Writes the text of a stack trace. False exactly if its frames aren't an array.
    #[tactic(auto, unfolding(crate::specs::Texts::trace_text))]
    pub(crate) fn write<'a>(
        &mut self,
        chunk: &Chunk<'a>,
        trace: &Node<'a>,
    ) -> Result<bool, NoMemory>
        requires ready { WritesFor chunk.now self.old.frames }
        requires value { IsValue chunk.now.classes trace.now }
        requires of_chunk { trace.now.bytes.now ≡ chunk.now.bytes }
        ensures ok { IfOk result (λ is. written is (string_bytes self.new.text) ≡ trace_text chunk.now (node_of trace.now)) }
        ensures ready { OnOk result (WritesFor chunk.now self.new.frames) }
    {
        self.text.clear();
        let Some(mut frames) = frames_in(self.alloc, chunk, &self.frames.fields.frames, trace)?
        else {
            return Ok(false);
        };
        self.push_stack(chunk, &mut frames)?;
        Ok(true)
    }

    /// Adds the text of the stack with these frames.
    fn push_stack<'a>(
        &mut self,
        chunk: &Chunk<'a>,
        frames: &mut Vec<Node<'a>>,
    ) -> Result<(), NoMemory>
        requires ready { WritesFor chunk.now self.old.frames }
        requires frames { AllByRecursion (IsChunkValue chunk.now) frames.old.items }
        ensures ok { OnOk result (string_bytes self.new.text ≡ string_bytes self.old.text ++ stack_text chunk.now (map node_of frames.old.items)) }
        ensures ready { OnOk result (WritesFor chunk.now self.new.frames) }
    {
        let Some(outermost) = frames.pop() else {
            self.text.push_str("(empty)")?;
            return Ok(());
        };
        self.frames.push(chunk, &outermost, &mut self.text)?;
        'frames: while let Some(frame) = frames.pop() {
            self.text.push_str(";")?;
            self.frames.push(chunk, &frame, &mut self.text)?;
        }
        Ok(())
    }
}
