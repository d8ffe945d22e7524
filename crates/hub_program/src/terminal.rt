//! Standard input at a terminal.

use std::io;
use std::io::{Read, Write};

/// The prompt at a terminal while the program waits for lines.
const PROMPT: &str = "note: waiting for lines from the terminal; end them with Ctrl-D\n\
note: 'pairsalder help lines' shows them, and 'help' those of a desk; without arguments the setup \
and an empty line come first\n";

/// An input that prints a prompt before its first read from a terminal, and reads a terminal's end
/// only once: after Ctrl-D a terminal would wait for more.
#[derive(Drop)]
pub struct Prompting<R, E> {
    input: R,
    errors: E,
    is_terminal: bool,
    is_due: bool,
    is_at_end: bool,
}

impl<R: Read, E: Write> Prompting<R, E> {
    /// The same input. The prompt goes to the errors, if the input is a terminal.
    pub fn new(input: R, errors: E, is_terminal: bool) -> Prompting<R, E> {
        Prompting {
            input,
            errors,
            is_terminal,
            is_due: is_terminal,
            is_at_end: false,
        }
    }
}

impl<R: Read, E: Write> Read for Prompting<R, E> {
    fn read(&mut self, buf: &mut [u8]) -> io::Result<usize> {
        if self.is_at_end {
            return Ok(0);
        }
        if self.is_due {
            self.is_due = false;
            let _ = self.errors.write_all(PROMPT.as_bytes());
        }
        let count = self.input.read(buf)?;
        self.is_at_end = self.is_terminal && count == 0 && !buf.is_empty();
        Ok(count)
    }
}
