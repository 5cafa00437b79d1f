//! The words that stand for a node's parameters, and the names of nodes over two plans.
ghost use Rattle.std.specs.Prelude.{◌≡◌};
ghost use Rattle.sched_plan_json_write.specs.Written.{side_word, test_word, fold_word, two_word};

use sched_plan::{Fold, Side, Test, Two};

/// The value that a gate tests.
pub(crate) fn side(side: Side) -> &'static str
    ensures { result.now ≡ side_word side }
{
    match side {
        Side::Input => "input",
        Side::Output => "output",
    }
}

/// The test of a gate.
pub(crate) fn test(test: Test) -> &'static str
    ensures { result.now ≡ test_word test }
{
    match test {
        Test::Below => "below",
        Test::AtLeast => "at_least",
        Test::Equal => "equal",
    }
}

/// What a gathering makes of the outputs.
pub(crate) fn fold(fold: Fold) -> &'static str
    ensures { result.now ≡ fold_word fold }
{
    match fold {
        Fold::Sum => "sum",
        Fold::Count => "count",
        Fold::Max => "max",
        Fold::List => "list",
    }
}

/// A node over two plans.
pub(crate) fn pair(node: Two) -> &'static str
    ensures { result.now ≡ two_word node }
{
    match node {
        // bin/nodes makes these rows.
        Two::Meet => "meet",
        Two::Join => "join",
        Two::Follow => "follow",
        Two::Feed => "feed",
        // end
    }
}
