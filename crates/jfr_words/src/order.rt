//! Orders, which are what a command line asks for, and why words give none.
use jfr_filter::{Filter, Patterns};
use jfr_outside::{NoMemory, Text};
use jfr_split::SplitRule;
use thiserror::Error;

/// What the words of a command line ask for.
#[derive(Drop)]
pub enum Order {
    /// Prints the events of the file that the filter keeps. References are followed down to the depth, 0 to
    /// 8. The output is lines of JSON if `json` is set.
    Print {
        filter: Filter,
        depth: u8,
        json: bool,
        file: Text,
    },
    /// Prints the totals of the file. The output is a line of JSON if `json` is set.
    Summary {
        json: bool,
        file: Text,
    },
    /// Prints the metadata of each chunk of the file. The output is lines of JSON if `json` is set.
    Metadata {
        json: bool,
        file: Text,
    },
    /// Writes to the output what remains of the input with only the events that the filter keeps. The keys of
    /// constants are numbered anew if `renumber` is set.
    Scrub {
        filter: Filter,
        renumber: bool,
        input: Text,
        output: Text,
    },
    /// Splits the file into parts.
    Disassemble {
        file: Text,
        rule: SplitRule,
    },
    /// Joins the files of the folder into the output.
    Assemble {
        folder: Text,
        output: Text,
    },
    /// Makes a recording of 1 to 1,000,000 events from a seed, scrubs it, and prints what is left.
    Sample {
        seed: u32,
        events: u32,
    },
    /// Writes a receipt of the input's scrub with this filter.
    Receipt {
        filter: Filter,
        input: Text,
        receipt: Text,
    },
    /// Checks by the receipt that the output is the input's scrub with this filter, or means the same.
    Verify {
        filter: Filter,
        input: Text,
        output: Text,
        receipt: Text,
    },
    /// Prints the call stacks of the events of the file that the filter keeps, each with its number of
    /// events.
    Stacks {
        filter: Filter,
        file: Text,
    },
    /// Builds a recording from the lines of a text.
    Build {
        text: Text,
        output: Text,
    },
    /// Writes to the output what remains of the input with only the events that the filter keeps, and with
    /// pseudonyms in the fields that `strings` matches and `except` doesn't. The lines of the file `known` are
    /// texts that get none. The pseudonyms and their texts are written to the file `table`.
    Mask {
        filter: Filter,
        strings: Patterns,
        except: Option<Patterns>,
        known: Option<Text>,
        table: Option<Text>,
        input: Text,
        output: Text,
    },
}

/// Why the words gave no order.
#[derive(Clone, Copy, Debug, PartialEq, Eq, Error)]
pub enum WordsFault {
    /// The words are not a valid order.
    #[error("Usage")]
    Usage,
    /// Memory ran out.
    #[error("Memory")]
    Memory,
}

impl From<NoMemory> for WordsFault {
    ghost use Rattle.std.specs.Prelude.{◌≡◌};
    ghost use Rattle.jfr_words.specs.declared.order.WordsFault.TheVariants.{Memory};

    ghost from_gives = { λ _ fault. fault ≡ Memory };

    fn from(_: NoMemory) -> Self {
        WordsFault::Memory
    }
}
