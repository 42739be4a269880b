ghost use Rattle.net_check.specs.FaultText.{fault_text, kind_text, read_net_text};
ghost use Rattle.net_check.specs.Words.{file_word, kind_word, kind_number};
ghost use Rattle.std.specs.Prelude.{◌≡◌, Some};

use std::error::Error;
use std::fmt;

/// The files that are read, and the words of a command line, which may name a bank.
#[derive(Clone, Copy, Debug, PartialEq, Eq)]
pub enum FileKind {
    Banks,
    Debts,
    Scenarios,
    Journal,
    Words,
}

impl FileKind {
    /// The word by which a message names the file.
    pub fn word(self) -> &'static str
        ensures { result.now ≡ file_word self }
    {
        match self {
            FileKind::Banks => "banks",
            FileKind::Debts => "debts",
            FileKind::Scenarios => "scenarios",
            FileKind::Journal => "journal",
            FileKind::Words => "words",
        }
    }
}

/// What may be wrong with a file.
#[derive(Clone, Copy, Debug, PartialEq, Eq)]
pub enum FaultKind {
    /// Record 0 is missing, or its fields are not the header's words.
    Header,
    /// A record has the wrong number of fields.
    Fields,
    /// A field is not a name.
    Name,
    /// A field is not 1 to 20 digits.
    Number,
    /// A field is not one of the six rules.
    Rule,
    /// A number is outside its limit.
    Limit,
    /// A bank of this name came before, in the file or in the scenario.
    DoubleBank,
    /// No bank has the name.
    UnknownBank,
    /// Debtor and creditor are the same bank.
    SelfDebt,
    /// A field is not one digit from 1 to 9.
    Class,
    /// A debt of this debtor, creditor and class came before.
    DoubleDebt,
    /// One more bank, debt, scenario or raise than the limit on their number.
    TooMany,
    /// The claims so far pass the limit on all of them together.
    Total,
    /// The file is longer than its limit.
    FileSize,
    /// No debt has this debtor, creditor and class.
    UnknownDebt,
    /// The document is not UTF-8, or not TOML.
    Toml,
    /// The document is not of the shape that its file must have.
    Shape,
}

impl FaultKind {
    /// The number of the kind, which ends a message.
    pub fn number(self) -> u32
        ensures { result ≡ kind_number self }
    {
        match self {
            FaultKind::Header => 1,
            FaultKind::Fields => 2,
            FaultKind::Name => 3,
            FaultKind::Number => 4,
            FaultKind::Rule => 5,
            FaultKind::Limit => 6,
            FaultKind::DoubleBank => 7,
            FaultKind::UnknownBank => 8,
            FaultKind::SelfDebt => 9,
            FaultKind::Class => 10,
            FaultKind::DoubleDebt => 11,
            FaultKind::TooMany => 12,
            FaultKind::Total => 13,
            FaultKind::FileSize => 14,
            FaultKind::UnknownDebt => 15,
            FaultKind::Toml => 16,
            FaultKind::Shape => 17,
        }
    }

    /// The word by which a message names the kind.
    pub fn word(self) -> &'static str
        ensures { result.now ≡ kind_word self }
    {
        match self {
            FaultKind::Header => "header",
            FaultKind::Fields => "fields",
            FaultKind::Name => "name",
            FaultKind::Number => "number",
            FaultKind::Rule => "rule",
            FaultKind::Limit => "limit",
            FaultKind::DoubleBank => "double bank",
            FaultKind::UnknownBank => "unknown bank",
            FaultKind::SelfDebt => "self debt",
            FaultKind::Class => "class",
            FaultKind::DoubleDebt => "double debt",
            FaultKind::TooMany => "too many",
            FaultKind::Total => "total",
            FaultKind::FileSize => "file size",
            FaultKind::UnknownDebt => "unknown debt",
            FaultKind::Toml => "toml",
            FaultKind::Shape => "shape",
        }
    }
}

/// The word of the kind, and its number in brackets.
impl fmt::Display for FaultKind {
    ghost output = { λ kind. Some (kind_text kind) };

    fn fmt<W: fmt::Write>(&self, f: &mut fmt::Formatter<W>) -> fmt::Result {
        write!(f, "{} ({})", self.word(), self.number())
    }
}

impl Error for FaultKind {}

/// What is wrong, and in which row of which file: the header is row 0.
#[derive(Clone, Copy, Debug, PartialEq, Eq)]
pub struct Fault {
    pub file: FileKind,
    pub row: u32,
    pub kind: FaultKind,
}

/// As the program's message names the fault: file, row, kind and the kind's number.
impl fmt::Display for Fault {
    ghost output = { λ fault. Some (fault_text fault) };

    fn fmt<W: fmt::Write>(&self, f: &mut fmt::Formatter<W>) -> fmt::Result {
        write!(f, "{} row {}: {}", self.file.word(), self.row, self.kind)
    }
}

impl Error for Fault {}

/// Why files are not read.
#[derive(Clone, Copy, Debug, PartialEq, Eq)]
pub enum ReadNet {
    /// The first fault in the files.
    Refused(Fault),
    /// Want of memory.
    Mem,
}

impl fmt::Display for ReadNet {
    ghost output = { λ why. Some (read_net_text why) };

    fn fmt<W: fmt::Write>(&self, f: &mut fmt::Formatter<W>) -> fmt::Result {
        match self {
            ReadNet::Refused(fault) => write!(f, "{fault}"),
            ReadNet::Mem => f.write_str("out of memory"),
        }
    }
}

impl Error for ReadNet {}
