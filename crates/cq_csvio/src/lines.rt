//! Lines of fields, by `csv`'s writer.
//!
//! [`Lines`] is begun behind a text; then come the fields of a line and its end, line after line, and at last the text
//! is taken out. After an Err it is only let go. A field costs its bytes.
ghost use Rattle.std.specs.Prelude.{◌∷◌, [], IfOk, OnOk};
ghost use Rattle.cq_csvio.specs.Lines.{Adds, Ends, HasText, Holds};

use crate::fault::TextFault;
use csv::{Writer, WriterBuilder};
use std::alloc::Global;

/// A text to whose end lines are added, field by field.
#[derive(Drop)]
pub struct Lines {
    writer: Writer<Vec<u8>>,
    // A field with one more byte in front. Its memory is used again.
    longer: Vec<u8>,
}

impl Lines {
    /// Lines behind a text.
    pub fn new(alloc: Global, text: Vec<u8>) -> Lines
        ensures { Holds result.writer text.items [] }
    {
        Lines {
            writer: WriterBuilder::new().flexible(true).from_writer(text),
            longer: Vec::new(alloc),
        }
    }

    /// Adds a field to the line that is written, in quotes where it wants them.
    pub fn add(&mut self, field: &[u8]) -> Result<(), TextFault>
        ensures { OnOk result (Adds field.now self.old self.new) }
    {
        self.writer.write_field(field)?;
        Ok(())
    }

    /// Adds a field of these bytes with a backslash in front of them.
    pub fn add_escaped(&mut self, field: &[u8]) -> Result<(), TextFault>
        ensures { OnOk result (Adds (92 ∷ field.now) self.old self.new) }
    {
        self.longer.clear();
        self.longer.push(b'\\')?;
        self.longer.extend_from_slice(field)?;
        self.writer.write_field(self.longer.as_slice())?;
        Ok(())
    }

    /// Ends the line.
    pub fn end(&mut self) -> Result<(), TextFault>
        ensures { OnOk result (Ends self.old self.new) }
    {
        self.writer.end_record()?;
        Ok(())
    }

    /// The text with the lines that were ended.
    pub fn into_text(self) -> Result<Vec<u8>, TextFault>
        ensures { IfOk result (λ text. HasText self text.items) }
    {
        let Lines { writer, longer: _ } = self;
        Ok(writer.into_inner()?)
    }
}
