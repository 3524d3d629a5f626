//! The version and the start of a recording.
ghost use Rattle.std.specs.Prelude.{◌≡◌};

use jfr_header::Header;

/// The version of a recording's first chunk, and when it starts.
#[derive(Clone, Copy, Debug)]
pub(crate) struct Beginning {
    pub major: u16,
    pub minor: u16,
    /// In nanoseconds since 1970.
    pub start_nanos: u64,
}

impl Beginning {
    ghost use Rattle.jfr_show.specs.Totals.{beginning_of};

    /// The beginning of a recording whose first chunk has this header.
    pub fn of(header: &Header) -> Beginning
        ensures { result ≡ beginning_of header.now }
    {
        Beginning {
            major: header.major,
            minor: header.minor,
            start_nanos: header.start_nanos,
        }
    }
}
