//! The exit statuses of a run.
ghost use Rattle.std.specs.Prelude.{◌≡◌};
ghost use Rattle.tlsview.specs.Exit.{status_of};

/// How a run ends; each case has an exit status.
#[derive(Clone, Copy, Debug, PartialEq, Eq)]
pub enum ViewExit {
    /// All lines were printed.
    Clean,
    /// A record was refused.
    Fault,
    /// A line was malformed.
    BadLine,
    /// There was no memory, or reading or writing failed.
    Failed,
}

impl From<ViewExit> for u8 {
    ghost from_gives = { λ exit status. status ≡ status_of exit };

    fn from(exit: ViewExit) -> u8 {
        match exit {
            ViewExit::Clean => 0,
            ViewExit::Fault => 1,
            ViewExit::BadLine => 2,
            ViewExit::Failed => 3,
        }
    }
}
