ghost use Rattle.clr_net.specs.Name.{is_name, may_stand_in_name as may_stand, is_control as is_control_character};
ghost use Rattle.clr_net.specs.NameFault.{name_fault_text};
ghost use Rattle.std.specs.Bool.{OnTrue};
ghost use Rattle.std.specs.List.{list_all};
ghost use Rattle.std.specs.Str.{IsAscii};
ghost use Rattle.std.specs.Prelude.{◌≡◌, ◌↔◌, false, true, IfOk, IsTrue, IsErrOf, Some};

use crate::{MAX_NAME_BYTES, Mem};
use std::alloc::Global;
use std::error::Error;
use std::fmt;
use std::marker::Model;

/// The name of a bank: 1 to [`MAX_NAME_BYTES`] bytes of UTF-8 without comma, double quote and
/// control characters.
#[derive(Drop)]
pub struct Name {
    text: Vec<u8>,
}

impl Model for Name {
    ghost use Rattle.clr_net.specs.Name.{is_name};
    ghost use Rattle.std.specs.Prelude.{List, ℕ, IsTrue};

    ghost Value = { List ℕ };

    ghost view = { λ n. n.text.items };

    ghost invariant = { λ n. IsTrue (is_name n.text.items) };
}

/// Why a text gives no name.
#[derive(Clone, Copy, Debug, PartialEq, Eq)]
pub enum NameFault {
    /// The text is not a name.
    Bad,
    /// Want of memory.
    Mem,
}

impl fmt::Display for NameFault {
    ghost output = { λ fault. Some (name_fault_text fault) };

    fn fmt<W: fmt::Write>(&self, f: &mut fmt::Formatter<W>) -> fmt::Result {
        f.write_str(match self {
            NameFault::Bad => "not a name",
            NameFault::Mem => "out of memory",
        })
    }
}

impl Error for NameFault {}

impl Name {
    /// The name that these bytes are. [`NameFault::Bad`] exactly where they are no name, and
    /// [`NameFault::Mem`] for want of memory alone.
    pub fn of(alloc: Global, text: &[u8]) -> Result<Name, NameFault>
        ensures ok { IfOk result (λ name. name ≡ text.now) }
        ensures bad { IsErrOf result NameFault.Bad ↔ (is_name text.now ≡ false) }
    {
        if !Name::accepts(text) {
            return Err(NameFault::Bad);
        }
        match Vec::from_slice(alloc, text) {
            Ok(text) => Ok(Name { text }),
            Err(_) => Err(NameFault::Mem),
        }
    }

    /// Whether these bytes are a name: the test that [`Name::of`] makes.
    pub fn accepts(text: &[u8]) -> bool
        ensures { result ≡ is_name text.now }
    {
        if text.is_empty() || text.len() > MAX_NAME_BYTES {
            return false;
        }
        if is_plain(text) {
            return true;
        }
        match std::str::from_utf8(text) {
            Ok(text) => text.chars().all(may_stand_in_name),
            Err(_) => false,
        }
    }

    /// The same name, in memory of its own. `Mem` for want of memory alone.
    pub fn copy(&self, alloc: Global) -> Result<Name, Mem>
        ensures { IfOk result (λ name. name ≡ self.now) }
    {
        let text = Vec::from_slice(alloc, self.bytes())?;
        Ok(Name { text })
    }

    /// The bytes of the name, which are UTF-8.
    pub fn bytes(&self) -> &[u8]
        ensures bytes { result.now ≡ self.now }
        ensures is_name { IsTrue (is_name self.now) }
    {
        self.text.as_slice()
    }
}

// Whether these bytes are ASCII characters that a name may have, as those of most names are: this
// costs less than to read them as UTF-8.
fn is_plain(text: &[u8]) -> bool
    ensures { OnTrue result (IsAscii text.now × (list_all may_stand text.now ≡ true)) }
{
    for byte in text {
        if *byte < 0x20 || *byte >= 0x7F || *byte == b',' || *byte == b'"' {
            return false;
        }
    }
    true
}

// Whether a name may have this character.
fn may_stand_in_name(c: char) -> bool
    ensures { result ≡ may_stand c }
{
    !is_control(c) && c != ',' && c != '"'
}

fn is_control(c: char) -> bool
    ensures { result ≡ is_control_character c }
{
    c <= '\u{1F}' || ('\u{7F}'..='\u{9F}').contains(&c)
}
