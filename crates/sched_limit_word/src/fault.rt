//! Why a call on a limit was not made, or a pass not split.
ghost use Rattle.std.specs.Prelude.{Some, codes};

use std::error::Error;
use std::fmt;

/// Other calls came first, as often as this one tried. Nothing has changed.
#[derive(Clone, Copy, Debug, PartialEq, Eq, Drop)]
pub struct RacesLost;

impl fmt::Display for RacesLost {
    ghost output = { λ _. Some (codes "other calls came first at each try") };

    fn fmt<W: fmt::Write>(&self, f: &mut fmt::Formatter<W>) -> fmt::Result {
        f.write_str("other calls came first at each try")
    }
}

impl Error for RacesLost {}

/// A pass with one part is not split.
#[derive(Clone, Copy, Debug, PartialEq, Eq, Drop)]
pub struct TooManyPasses;

impl fmt::Display for TooManyPasses {
    ghost output = { λ _. Some (codes "the pass has one part, which it keeps") };

    fn fmt<W: fmt::Write>(&self, f: &mut fmt::Formatter<W>) -> fmt::Result {
        f.write_str("the pass has one part, which it keeps")
    }
}

impl Error for TooManyPasses {}
