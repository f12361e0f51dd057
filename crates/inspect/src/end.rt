ghost use Rattle.std.specs.Prelude.{◌≡◌};
ghost use Rattle.inspect.specs.EndText.{code_of, line_of};

/// How a run of the program ended.
#[derive(Clone, Copy, Debug, PartialEq, Eq)]
pub enum End {
    /// The input was read to its end, and all was printed.
    Done,
    /// The words are none of the program's. Nothing was read.
    Usage,
    /// The input failed.
    ReadFault,
    /// The output failed. A part of the text may be written.
    WriteFault,
    /// The input is longer than an input may be. Nothing was printed.
    Long,
    /// A database file or its log is longer than one may be. Nothing was printed.
    FileLong,
    /// Memory ran out. Nothing was printed.
    Memory,
}

impl End {
    /// The exit status of the program.
    pub fn code(self) -> u8
        ensures { result ≡ code_of self }
    {
        match self {
            End::Done => 0,
            End::Usage => 2,
            End::ReadFault | End::WriteFault | End::Long | End::FileLong | End::Memory => 1,
        }
    }

    /// What is printed to standard error: a line with its end, and nothing where all went well.
    pub fn line(self) -> &'static str
        ensures { result.now ≡ line_of self }
    {
        match self {
            End::Done => "",
            End::Usage => "inspect: unknown words, see --help\n",
            End::ReadFault => "inspect: read fault\n",
            End::WriteFault => "inspect: write fault\n",
            End::Long => "inspect: the input is longer than 134217728 bytes\n",
            End::FileLong => "inspect: the file is longer than 1073741824 bytes\n",
            End::Memory => "inspect: no memory\n",
        }
    }
}
