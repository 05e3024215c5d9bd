//! How a command ends.
ghost use Rattle.std.specs.Prelude.{◌≡◌};
ghost use Rattle.mls_top.specs.Statuses.{code_of};

/// How a command ended.
#[derive(Clone, Copy, Debug, PartialEq, Eq)]
pub enum Status {
    /// The command did its work.
    Done,
    /// A binding has no scheme; its first expression that has none is printed.
    NoScheme,
    /// The module does not keep its interface's promise; the first declaration that fails is printed.
    Mismatch,
    /// A text has a fault, which is printed.
    BadText,
    /// A file is not there; its name is printed.
    NoFile,
    /// A file could not be read. Nothing is printed.
    ReadFault,
    /// The answer could not be written whole.
    WriteFault,
    /// Memory was wanting. A front of the answer may be printed.
    Memory,
    /// The words are no command; the usage is printed.
    Usage,
    /// A step of a derivation is not allowed; the first such step is printed.
    NotVerified,
    /// A file is longer than its limit; its name and the limit are printed.
    TooLong,
}

impl Status {
    /// The exit code of the program: 0 for Done, 1 NoScheme, 2 Mismatch, 3 BadText, 4 NoFile, 5 ReadFault, 6
    /// WriteFault, 7 Memory, 8 Usage, 9 NotVerified and 11 TooLong. It takes no memory.
    pub fn code(&self) -> u8
        ensures { result ≡ code_of self.now }
    {
        match self {
            Status::Done => 0,
            Status::NoScheme => 1,
            Status::Mismatch => 2,
            Status::BadText => 3,
            Status::NoFile => 4,
            Status::ReadFault => 5,
            Status::WriteFault => 6,
            Status::Memory => 7,
            Status::Usage => 8,
            Status::NotVerified => 9,
            Status::TooLong => 11,
        }
    }
}
