// Why a run gives no trace of the whole log.
use lhg_play::Trace;

/// What stops a run. Entries are counted from 1, and 0 is the start.
#[derive(Drop)]
pub enum RunStop {
    /// The entry is the first illegal one; the trace is that of the entries before it, and empty for the start.
    Illegal { entry: u32, trace: Trace },
    /// A number of the entry is too large.
    Wide { entry: u32 },
    /// A list of rows of the entry is too long.
    Rows { entry: u32 },
    /// Memory is out.
    Memory,
}
