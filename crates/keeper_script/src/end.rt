/// Why a script ended early.
#[derive(Clone, Copy)]
pub enum End {
    /// The words or a line are none, or a batch would name a key twice.
    Script,
    /// The input failed, or is too long.
    Input,
    /// The keeper failed.
    Keeper,
    /// The output failed.
    Output,
    /// Memory ran out.
    Memory,
}

impl End {
    /// The exit status.
    pub(crate) fn code(self) -> u8 {
        match self {
            End::Script => 1,
            End::Input => 2,
            End::Keeper => 3,
            End::Output => 4,
            End::Memory => 5,
        }
    }
}
