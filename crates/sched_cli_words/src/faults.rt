use std::alloc::{AllocError, Global};
use std::error::Error;
use std::fmt;

/// Why a command line is no task for the program.
#[derive(Debug, Drop)]
pub enum WordsFault {
    /// A missing subcommand, an unknown option, or a value outside its range: which one and what is wanted, in a line.
    Bad(String),
    /// Help or the version was asked for: the text to show.
    Help(String),
    /// A growth was refused.
    NoMemory,
}

impl WordsFault {
    ghost use Rattle.std.specs.Prelude.{◌≡◌};
    ghost use Rattle.sched_cli_words.specs.Status.{words_status, IsBadFor};

    /// `Bad` for this reason, or `NoMemory` where there is none to keep it.
    pub fn bad(alloc: Global, why: &str) -> WordsFault
        ensures { IsBadFor why.now result }
    {
        match String::from_str(alloc, why) {
            Ok(why) => WordsFault::Bad(why),
            Err(_) => WordsFault::NoMemory,
        }
    }

    /// The status that the program exits with: 0 where help or the version was asked for.
    pub fn status(&self) -> u8
        ensures { result ≡ words_status self.now }
    {
        match self {
            WordsFault::Help(_) => 0,
            WordsFault::Bad(_) => 2,
            WordsFault::NoMemory => 5,
        }
    }
}

// What the program tells of it, without the last line feed; of a bad command line a second line says why.
impl fmt::Display for WordsFault {
    ghost use Rattle.std.specs.Prelude.{Some};
    ghost use Rattle.sched_cli_words.specs.Status.{words_text};

    ghost output = { λ fault. Some (words_text fault) };

    fn fmt<W: fmt::Write>(&self, f: &mut fmt::Formatter<W>) -> fmt::Result {
        match self {
            WordsFault::Bad(why) => write!(f, "zsched: bad command line\n{}", why.as_str()),
            WordsFault::Help(text) => f.write_str(text.as_str()),
            WordsFault::NoMemory => f.write_str("zsched: no memory"),
        }
    }
}

impl Error for WordsFault {}

impl From<AllocError> for WordsFault {
    ghost use Rattle.sched_cli_words.specs.declared.faults.WordsFault.TheVariants.{NoMemory};
    ghost use Rattle.std.specs.Prelude.{◌≡◌};

    ghost from_gives = { λ _ fault. fault ≡ NoMemory };

    fn from(_: AllocError) -> Self {
        WordsFault::NoMemory
    }
}
