//! The texts of frames, and of the methods, classes and names in them.
ghost use Rattle.std.specs.Prelude.{◌≡◌, ◌++◌, IfOk, OnOk, string_bytes};
ghost use Rattle.jfr_value.specs.Nodes.{node_of};
ghost use Rattle.jfr_stacks.specs.Frames.{IsChunkValue};
ghost use Rattle.jfr_stacks.specs.Roles.{WritesFor, own_name, role_text, type_name};
ghost use Rattle.jfr_stacks.specs.declared.role.Role.TheVariants.{Method, Name};
ghost use Rattle.jfr_stacks.specs.Texts.{frame_text};

use crate::entry::referred;
use crate::fields::StackFields;
use crate::names::{push_missing, push_text};
use crate::role::Role;
use crate::texts::RoleTexts;
use jfr_base::NoMemory;
use jfr_chunk::Chunk;
use jfr_value::Node;
use std::alloc::Global;

/// Writes the texts of the frames of one chunk. A text is made only once for each entry in each role.
#[derive(Drop)]
pub(crate) struct FrameWriter {
    pub(crate) alloc: Global,
    pub(crate) fields: StackFields,
    pub(crate) texts: RoleTexts,
}

impl FrameWriter {
    /// A writer for the frames of this chunk.
    pub(crate) fn new(alloc: Global, chunk: &Chunk<'_>) -> Result<FrameWriter, NoMemory>
        ensures ready { IfOk result (WritesFor chunk.now) }
    {
        let fields = StackFields::of(alloc, chunk.classes())?;
        Ok(FrameWriter {
            alloc,
            fields,
            texts: RoleTexts::new(alloc),
        })
    }

    /// Adds the text of a frame.
    pub(crate) fn push<'a>(
        &mut self,
        chunk: &Chunk<'a>,
        frame: &Node<'a>,
        out: &mut String,
    ) -> Result<(), NoMemory>
        requires ready { WritesFor chunk.now self.old }
        requires frame { IsChunkValue chunk.now frame.now }
        ensures ok { OnOk result (string_bytes out.new ≡ string_bytes out.old ++ frame_text chunk.now (node_of frame.now)) }
        ensures ready { OnOk result (WritesFor chunk.now self.new) }
    {
        self.push_as(chunk, Role::Frame, frame, out)
    }

    /// Adds the text of a value in this role. If the value is a reference, the text is that of its entry.
    #[cycle(roles)]
    fn push_as<'a>(
        &mut self,
        chunk: &Chunk<'a>,
        role: Role,
        value: &Node<'a>,
        out: &mut String,
    ) -> Result<(), NoMemory>
        requires ready { WritesFor chunk.now self.old }
        requires value { IsChunkValue chunk.now value.now }
        ensures ok { OnOk result (string_bytes out.new ≡ string_bytes out.old ++ role_text chunk.now role (node_of value.now)) }
        ensures ready { OnOk result (WritesFor chunk.now self.new) }
    {
        let Some(number) = referred(chunk, value) else {
            return self.push_parts(chunk, role, value, out);
        };
        if let Some(text) = self.texts.get(role, number) {
            out.push_str(text)?;
            return Ok(());
        }
        let text = self.text_as(chunk, role, value)?;
        out.push_str(text.as_str())?;
        self.texts.keep(role, chunk.pools().len(), number, text)
    }

    /// The text of a value in this role.
    #[cycle(roles)]
    fn text_as<'a>(
        &mut self,
        chunk: &Chunk<'a>,
        role: Role,
        value: &Node<'a>,
    ) -> Result<String, NoMemory>
        requires ready { WritesFor chunk.now self.old }
        requires value { IsChunkValue chunk.now value.now }
        ensures ok { IfOk result (λ text. string_bytes text ≡ role_text chunk.now role (node_of value.now)) }
        ensures ready { OnOk result (WritesFor chunk.now self.new) }
    {
        let mut text = String::new(self.alloc);
        self.push_parts(chunk, role, value, &mut text)?;
        Ok(text)
    }

    /// Adds the text of a value in this role, made from the value's fields.
    #[cycle(roles)]
    fn push_parts<'a>(
        &mut self,
        chunk: &Chunk<'a>,
        role: Role,
        value: &Node<'a>,
        out: &mut String,
    ) -> Result<(), NoMemory>
        requires ready { WritesFor chunk.now self.old }
        requires value { IsChunkValue chunk.now value.now }
        ensures ok { OnOk result (string_bytes out.new ≡ string_bytes out.old ++ role_text chunk.now role (node_of value.now)) }
        ensures ready { OnOk result (WritesFor chunk.now self.new) }
    {
        match role {
            Role::Frame => self.push_method(chunk, value, out),
            Role::Method => self.push_names(chunk, value, out),
            Role::Class => self.push_name(chunk, value, out),
            Role::Name => self.push_string(chunk, value, out),
        }
    }

    /// Adds the text of the method of a frame.
    #[cycle(roles)]
    fn push_method<'a>(
        &mut self,
        chunk: &Chunk<'a>,
        frame: &Node<'a>,
        out: &mut String,
    ) -> Result<(), NoMemory>
        requires ready { WritesFor chunk.now self.old }
        requires value { IsChunkValue chunk.now frame.now }
        ensures ok { OnOk result (string_bytes out.new ≡ string_bytes out.old ++ frame_text chunk.now (node_of frame.now)) }
        ensures ready { OnOk result (WritesFor chunk.now self.new) }
    {
        match self.fields.method.find(chunk, frame) {
            Some(method) => self.push_as(chunk, Role::Method, &method, out),
            None => {
                out.push_str("?.?")?;
                Ok(())
            }
        }
    }

    /// Adds the names of the class and the method.
    #[cycle(roles)]
    fn push_names<'a>(
        &mut self,
        chunk: &Chunk<'a>,
        method: &Node<'a>,
        out: &mut String,
    ) -> Result<(), NoMemory>
        requires ready { WritesFor chunk.now self.old }
        requires value { IsChunkValue chunk.now method.now }
        ensures ok { OnOk result (string_bytes out.new ≡ string_bytes out.old ++ role_text chunk.now Method (node_of method.now)) }
        ensures ready { OnOk result (WritesFor chunk.now self.new) }
    {
        self.push_class(chunk, method, out)?;
        out.push_str(".")?;
        self.push_name(chunk, method, out)
    }

    /// Adds the name of the class of a method.
    #[cycle(roles)]
    fn push_class<'a>(
        &mut self,
        chunk: &Chunk<'a>,
        method: &Node<'a>,
        out: &mut String,
    ) -> Result<(), NoMemory>
        requires ready { WritesFor chunk.now self.old }
        requires value { IsChunkValue chunk.now method.now }
        ensures ok { OnOk result (string_bytes out.new ≡ string_bytes out.old ++ type_name chunk.now (node_of method.now)) }
        ensures ready { OnOk result (WritesFor chunk.now self.new) }
    {
        match self.fields.class.find(chunk, method) {
            Some(class) => self.push_as(chunk, Role::Class, &class, out),
            None => push_missing(out),
        }
    }

    /// Adds the name of a class or a method.
    #[cycle(roles)]
    fn push_name<'a>(
        &mut self,
        chunk: &Chunk<'a>,
        named: &Node<'a>,
        out: &mut String,
    ) -> Result<(), NoMemory>
        requires ready { WritesFor chunk.now self.old }
        requires value { IsChunkValue chunk.now named.now }
        ensures ok { OnOk result (string_bytes out.new ≡ string_bytes out.old ++ own_name chunk.now (node_of named.now)) }
        ensures ready { OnOk result (WritesFor chunk.now self.new) }
    {
        match self.fields.name.find(chunk, named) {
            Some(name) => self.push_as(chunk, Role::Name, &name, out),
            None => push_missing(out),
        }
    }

    /// Adds the string of a name.
    fn push_string<'a>(
        &self,
        chunk: &Chunk<'a>,
        name: &Node<'a>,
        out: &mut String,
    ) -> Result<(), NoMemory>
        requires ready { WritesFor chunk.now self.now }
        requires value { IsChunkValue chunk.now name.now }
        ensures ok { OnOk result (string_bytes out.new ≡ string_bytes out.old ++ role_text chunk.now Name (node_of name.now)) }
    {
        match self.fields.string.find(chunk, name) {
            Some(string) => push_text(self.alloc, chunk, &string, out),
            None => push_missing(out),
        }
    }
}
