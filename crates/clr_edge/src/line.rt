//! Lines of fields as printers of files write them.
ghost use Rattle.clr_net.specs.Lines.{line};
ghost use Rattle.std.specs.Fmt.{decimal};
ghost use Rattle.std.specs.Prelude.{◌≡◌, ◌+◌, ◌≤◌, ◌++◌, ◌∷◌, [], OnOk, length};

use clr_net::{Mem, Name};
use itoa::{Buffer, Integer, write_digits};
use std::marker::Model;

/// The most bytes of a [`Line`]: two names of banks and six numbers fit.
pub const MAX_LINE: usize = 256;

/// A line that is written from its end: its last field first, and each other before those that are
/// there. One such line serves for all lines of a file. Contracts see its bytes.
#[derive(Drop)]
pub struct Line {
    bytes: [u8; MAX_LINE],
    start: usize,
}

impl Model for Line {
    ghost use Rattle.std.specs.Prelude.{ℕ, List, drop, ◌≤◌};
    ghost use Rattle.clr_edge.specs.declared.line.TheConstants.{MAX_LINE};

    ghost Value = { List ℕ };

    ghost view = { λ l. drop l.start l.bytes };

    ghost invariant = { λ l. l.start ≤ MAX_LINE };
}

impl Line {
    /// A line without a byte.
    pub fn empty() -> Line
        ensures { result ≡ [] }
    {
        Line {
            bytes: [0; MAX_LINE],
            start: MAX_LINE,
        }
    }

    /// Begins the line anew, with a number as its last field.
    pub fn begin(&mut self, number: u64)
        ensures line { self.new ≡ line (decimal number ∷ []) }
        ensures short { length self.new ≤ 21 }
    {
        self.bytes[MAX_LINE - 1] = b'\n';
        self.start = write_digits(number, &mut self.bytes, MAX_LINE - 1);
    }

    /// Begins the line anew, with a word as its last field.
    pub fn begin_word(&mut self, word: &[u8])
        requires room { length word.now ≤ 64 }
        ensures line { self.new ≡ line (word.now ∷ []) }
        ensures short { length self.new ≤ 65 }
    {
        self.start = MAX_LINE;
        self.put(word, b'\n');
    }

    /// Puts a number before the other fields.
    pub fn add_number(&mut self, number: u64)
        requires room { length self.old + 21 ≤ MAX_LINE }
        ensures bytes { self.new ≡ decimal number ++ 44 ∷ self.old }
        ensures more { length self.new ≤ length self.old + 21 }
    {
        let end = self.start - 1;
        self.bytes[end] = b',';
        self.start = write_digits(number, &mut self.bytes, end);
    }

    /// Puts the name of a bank before the other fields.
    pub fn add_name(&mut self, name: &Name)
        requires room { length self.old + 65 ≤ MAX_LINE }
        ensures bytes { self.new ≡ name.now ++ 44 ∷ self.old }
        ensures more { length self.new ≤ length self.old + 65 }
    {
        self.put(name.bytes(), b',');
    }

    // Puts a field and the byte that ends it before the bytes that are there.
    fn put(&mut self, field: &[u8], end: u8)
        requires room { length self.old + length field.now + 1 ≤ MAX_LINE }
        ensures bytes { self.new ≡ field.now ++ end ∷ self.old }
    {
        let place = self.start - 1;
        self.bytes[place] = end;
        let start = place - field.len();
        self.bytes[start..place].copy_from_slice(field);
        self.start = start;
    }

    /// The bytes of the line.
    pub fn bytes(&self) -> &[u8]
        ensures { result.now ≡ self.now }
    {
        &self.bytes[self.start..]
    }
}

/// Appends a field and the byte that ends it.
pub fn push_field(text: &mut Vec<u8>, field: &[u8], end: u8) -> Result<(), Mem>
    ensures { OnOk result (text.new.items ≡ text.old.items ++ (field.now ++ end ∷ [])) }
{
    text.extend_from_slice(field)?;
    text.push(end)?;
    Ok(())
}

/// Appends a number in decimal digits and the byte that ends it.
pub fn push_number<I: Integer>(text: &mut Vec<u8>, number: I, end: u8) -> Result<(), Mem>
    ensures { OnOk result (text.new.items ≡ text.old.items ++ (I.text number ++ end ∷ [])) }
{
    push_field(text, Buffer::new().format(number).as_bytes(), end)
}
