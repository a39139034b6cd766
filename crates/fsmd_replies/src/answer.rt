//! How a command ends, and what it answers.

ghost use Rattle.std.specs.Prelude.{◌≡◌, option_map};
ghost use Rattle.fsmd_replies.specs.Statuses.{code_of, status_of, certificate_in};

use cert_facts::faults::CertError;
use fs_ast::check::CheckFault;
use fs_grammar::fault::TextFault;
use fs_model::name::Name;
use hls_unit_counts::Unit;
use std::marker::Model;

/// How a command ended.
#[derive(Clone, Copy)]
pub enum Status {
    /// The question was answered, and where it can have a yes, with that.
    Fine,
    /// A difference was found.
    Differ,
    /// Neither sameness nor a difference was found.
    Undecided,
    /// The words are no command.
    Usage,
    /// A file that was named is refused.
    BadInput,
    /// Out of memory.
    NoMemory,
    /// A file could not be read or written, or the reply could not be written.
    Fault,
}

impl Status {
    /// The number with which the program ends.
    pub fn code(self) -> u8
        ensures { result ≡ code_of self }
    {
        match self {
            Status::Fine => 0,
            Status::Differ => 1,
            Status::Undecided => 2,
            Status::Usage => 64,
            Status::BadInput => 65,
            Status::NoMemory => 71,
            Status::Fault => 74,
        }
    }
}

/// The number of a file of a command in the order of work, from 0.
#[derive(Clone, Copy)]
pub struct Operand(pub u32);

/// Lines of text that a command answers. Contracts see their bytes.
#[derive(Drop)]
pub struct Lines {
    bytes: Vec<u8>,
}

impl Model for Lines {
    ghost use Rattle.std.specs.Prelude.{ℕ, List};

    ghost Value = { List ℕ };

    ghost view = { λ lines. lines.bytes.items };
}

impl Lines {
    /// Lines of these bytes. Takes no memory.
    pub fn of(bytes: Vec<u8>) -> Lines
        ensures { result ≡ bytes.items }
    {
        Lines { bytes }
    }

    /// The bytes. Takes no memory.
    pub fn bytes(&self) -> &[u8]
        ensures { result.now ≡ self.now }
    {
        self.bytes.as_slice()
    }
}

/// What is wrong at a key of a JSON file. The empty key stands for a file that is no object.
#[derive(Clone, Copy)]
pub enum KeyFault {
    /// The value has a wrong form.
    Shape,
    /// The key is none that a value may be given for.
    UnknownName,
    /// The value is a number that is too great or too small.
    NumberTooBig,
    /// The value is a string that is no name.
    BadName,
    /// The value is the name of a variable.
    Taken,
}

/// What a command answers.
#[derive(Drop)]
pub enum Answer {
    /// The words are no command.
    Usage,
    /// The machines have the same behaviour, which this many nodes show; with the text of the certificate, where that
    /// is to be stored.
    Equivalent {
        nodes: u32,
        cert: Option<Lines>,
    },
    /// What was asked of a machine or of a program, or of runs that ended, with the same outputs where they are two; or
    /// that a certificate shows that two machines have the same behaviour, or the certificates of a chain its first and
    /// its last.
    Text {
        lines: Lines,
    },
    /// Two runs that ended with other outputs, an obligation of a certificate that fails, or a branch that loses a
    /// local by a binding.
    Differs {
        lines: Lines,
    },
    /// What kept two machines, a certificate or a run from being decided.
    Undecided {
        lines: Lines,
    },
    /// What a link of a chain answers that does not hold: the lines of its answer, told as those of the link, with its
    /// status.
    Link {
        status: Status,
        lines: Lines,
    },
    /// A file spells no parts of a machine, or no program.
    TextRefused {
        file: Operand,
        fault: TextFault,
    },
    /// The parts that a file spells, or those of the machine of its program, break a rule.
    CheckRefused {
        file: Operand,
        fault: CheckFault,
    },
    /// A file of inputs, of unit counts or of a binding is not JSON.
    NotJson {
        file: Operand,
    },
    /// A file of inputs, of unit counts or of a binding has a fault at a key.
    KeyRefused {
        file: Operand,
        fault: KeyFault,
        key: Lines,
    },
    /// A transition of a state uses more of a unit than the file of unit counts gives.
    Over {
        file: Operand,
        state: Lines,
        unit: Unit,
    },
    /// A file spells no certificate.
    CertRefused {
        file: Operand,
        error: CertError,
    },
    /// A name is an input or output of one machine and not alike of the other.
    Interfaces {
        name: Name,
    },
    /// A file has more bytes than are read.
    TooLong {
        file: Operand,
        limit: u64,
    },
    /// A file could not be read.
    CannotRead {
        file: Operand,
    },
}

impl Answer {
    /// The status with which a command that answers this ends.
    pub fn status(&self) -> Status
        ensures { result ≡ status_of self.now }
    {
        match self {
            Answer::Equivalent { .. } | Answer::Text { .. } => Status::Fine,
            Answer::Differs { .. } => Status::Differ,
            Answer::Undecided { .. } => Status::Undecided,
            Answer::Link { status, .. } => *status,
            Answer::Usage => Status::Usage,
            Answer::TextRefused { .. }
            | Answer::CheckRefused { .. }
            | Answer::NotJson { .. }
            | Answer::KeyRefused { .. }
            | Answer::Over { .. }
            | Answer::CertRefused { .. }
            | Answer::Interfaces { .. }
            | Answer::TooLong { .. } => Status::BadInput,
            Answer::CannotRead { .. } => Status::Fault,
        }
    }

    /// The text of a certificate that is to be stored, if one is. Takes no memory.
    pub fn certificate(&self) -> Option<&[u8]>
        ensures { option_map (λ text. text.now) result ≡ certificate_in self.now }
    {
        match self {
            Answer::Equivalent {
                cert: Some(lines),
                ..
            } => Some(lines.bytes()),
            _ => None,
        }
    }
}
