//! How the program ends.
use jfr_build::BuildReason;
use jfr_header::Ending;
use jfr_verify::Doubt;

/// How the program ends: how the order ended, or that the words aren't an order.
#[derive(Clone, Copy, Debug)]
pub enum Answer {
    /// The words aren't an order.
    Usage,
    /// The command ended: it is done, or ended early, such as at a refused chunk or a failed call.
    Ended(Ending),
    /// A check has a doubt about the chunk with this number.
    Doubted { chunk: u64, doubt: Doubt },
    /// A text for `build` is refused at the line with this number.
    Unbuilt { line: u64, reason: BuildReason },
}
