//! A filter's time window, by the clock of a chunk.
ghost use Rattle.std.specs.Prelude.{◌≡◌, ◌-ℤ◌, ◌*ℤ◌, int_le, int_lt, true, option_map};
ghost use Rattle.std.specs.Option.{option_map_or};
ghost use Rattle.jfr_path.specs.Times.{IsWindowOf, has};

use jfr_base::signed;
use jfr_chunk::Chunk;
use jfr_filter::Filter;

/// The billionths in a tick. Moments are compared in billionths of ticks: in a nanosecond as many of them go by as
/// ticks in a second. So they are whole numbers, and nothing is rounded.
const BILLIONTHS: i128 = 1_000_000_000;

/// A filter's time window, by the clock of a chunk.
#[derive(Clone, Copy, Debug)]
pub(crate) enum Window {
    /// No event is in it, since the chunk's ticks per second aren't positive.
    Empty,
    /// An event is in it that ends at `from` or later and starts before `to`, as far as these are given. Both
    /// are in billionths of ticks after the start of the chunk, which is at the tick `start`.
    Between {
        start: i64,
        from: Option<i128>,
        to: Option<i128>,
    },
}

impl Window {
    /// The window of the filter, by the clock of the chunk.
    pub(crate) fn of(chunk: &Chunk<'_>, filter: &Filter) -> Window
        ensures { IsWindowOf filter.now chunk.now result }
    {
        let header = chunk.header();
        let rate = signed(header.ticks_per_second);
        if rate <= 0 {
            return Window::Empty;
        }
        let nanos = signed(header.start_nanos);
        Window::Between {
            start: signed(header.start_ticks),
            from: billionths_until(filter.from(), nanos, rate),
            to: billionths_until(filter.to(), nanos, rate),
        }
    }

    /// Whether an event is in it that starts at this tick and lasts this many ticks.
    pub(crate) fn has(&self, start: i64, duration: i64) -> bool
        ensures { result ≡ has self.now start duration }
    {
        match self {
            Window::Empty => false,
            Window::Between {
                start: first,
                from,
                to,
            } => {
                let since = (i128::from(start) - i128::from(*first)) * BILLIONTHS;
                let until = since + i128::from(duration) * BILLIONTHS;
                if !ends_from(*from, until) {
                    return false;
                }
                starts_before(*to, since)
            }
        }
    }
}

/// Whether an event that ends at `until` ends at `from` or later; true if `from` isn't given.
fn ends_from(from: Option<i128>, until: i128) -> bool
    ensures { result ≡ option_map_or (λ first. int_le first until) from true }
{
    match from {
        Some(first) => first <= until,
        None => true,
    }
}

/// Whether an event that starts at `since` starts before `to`; true if `to` isn't given.
fn starts_before(to: Option<i128>, since: i128) -> bool
    ensures { result ≡ option_map_or (λ end. int_lt since end) to true }
{
    match to {
        Some(end) => since < end,
        None => true,
    }
}

/// The billionths of ticks from the start of a chunk to a moment, if one is given. The chunk starts at `nanos`,
/// and both are in nanoseconds since 1970; `rate` is the number of ticks in a second.
fn billionths_until(moment: Option<i64>, nanos: i64, rate: i64) -> Option<i128>
    ensures { result ≡ option_map (λ m. (m -ℤ nanos) *ℤ rate) moment }
{
    let moment = moment?;
    Some((i128::from(moment) - i128::from(nanos)) * i128::from(rate))
}
