//! The table of nodes for hints: how each is spelt.
use sched_time::NoMemory;
use std::alloc::Global;
use strsim::levenshtein;

// The most edits by which a name is near to another.
const MAX_EDITS: usize = 2;

// The most bytes of a word that is near to a name: of two letters more than the longest.
const MAX_WORD: usize = 76;

// Each node with how it is spelt, in the order in which the nearest name is looked for.
// bin/nodes makes these rows.
const NODES: [(&str, &str); 32] = [
    ("forever", r#""forever""#),
    ("recurs", r#"{"recurs":N}, N from 0 to 4611686018427387903"#),
    ("spaced", r#"{"spaced":D}, D from 0 to 4611686018427387903"#),
    ("fixed", r#"{"fixed":D}, D from 1 to 4611686018427387903"#),
    (
        "windowed",
        r#"{"windowed":D}, D from 1 to 4611686018427387903"#,
    ),
    ("linear", r#"{"linear":D}, D from 0 to 4611686018427387903"#),
    (
        "exponential",
        r#"{"exponential":[D,F]}, D from 0 to 4611686018427387903, F from 1 to 1000"#,
    ),
    (
        "exponential_milli",
        r#"{"exponential_milli":[D,F]}, D from 0 to 4611686018427387903, F from 1 to 1000000"#,
    ),
    (
        "fibonacci",
        r#"{"fibonacci":D}, D from 0 to 4611686018427387903"#,
    ),
    (
        "decorrelated",
        "{\"decorrelated\":[LANE,D,F,MAX]}, LANE from 0 to 3, D from 0 to MAX, F from 1000 to 1000000, MAX from D \
         to 4611686018427387903",
    ),
    ("elapsed", r#""elapsed""#),
    ("identity", r#""identity""#),
    (
        "unfold",
        r#"{"unfold":[S,M,A]}, each from 0 to 4611686018427387903"#,
    ),
    ("lone", r#"{"lone":D}, D from 0 to 4611686018427387903"#),
    ("meet", r#"{"meet":[PLAN,PLAN]}"#),
    ("join", r#"{"join":[PLAN,PLAN]}"#),
    ("follow", r#"{"follow":[PLAN,PLAN]}"#),
    ("feed", r#"{"feed":[PLAN,PLAN]}"#),
    (
        "gate",
        "{\"gate\":[SIDE,WANT,TEST,N,PLAN]}, SIDE \"input\" or \"output\", WANT true or false, TEST \"below\", \
         \"at_least\" or \"equal\", N from 0 to 4611686018427387903",
    ),
    (
        "gather",
        r#"{"gather":[KIND,PLAN]}, KIND "sum", "count", "max" or "list""#,
    ),
    (
        "add",
        r#"{"add":[D,PLAN]}, D from 0 to 4611686018427387903"#,
    ),
    (
        "set",
        r#"{"set":[D,PLAN]}, D from 0 to 4611686018427387903"#,
    ),
    (
        "cap",
        r#"{"cap":[D,PLAN]}, D from 0 to 4611686018427387903"#,
    ),
    ("add_out", r#"{"add_out":PLAN}"#),
    (
        "jitter",
        r#"{"jitter":[LANE,MIN,MAX,PLAN]}, LANE from 0 to 3, MIN at most MAX, MAX at most 10000"#,
    ),
    (
        "within",
        r#"{"within":[D,PLAN]}, D from 0 to 4611686018427387903"#,
    ),
    (
        "ends_by",
        r#"{"ends_by":[D,PLAN]}, D from 0 to 4611686018427387903"#,
    ),
    (
        "renew",
        r#"{"renew":[D,PLAN]}, D from 1 to 4611686018427387903"#,
    ),
    (
        "renew_idle",
        r#"{"renew_idle":[D,PLAN]}, D from 1 to 4611686018427387903"#,
    ),
    ("first", r#"{"first":PLAN}"#),
    ("second", r#"{"second":PLAN}"#),
    ("nothing", r#"{"nothing":PLAN}"#),
];
// end

// Words of other libraries, each with the node that does the same.
const FOREIGN: [(&str, &str); 20] = [
    ("and", "meet"),
    ("both", "meet"),
    ("intersect", "meet"),
    ("or", "join"),
    ("either", "join"),
    ("union", "join"),
    ("andThen", "follow"),
    ("and_then", "follow"),
    ("then", "follow"),
    ("retry", "recurs"),
    ("times", "recurs"),
    ("attempts", "recurs"),
    ("max_retries", "recurs"),
    ("constant", "spaced"),
    ("delay", "spaced"),
    ("wait", "spaced"),
    ("backoff", "exponential"),
    ("always", "forever"),
    ("upTo", "within"),
    ("max_delay", "cap"),
];

/// The node that does what another library calls so, if there is one.
pub(crate) fn foreign(word: &str) -> Option<&'static str> {
    for (known, node) in &FOREIGN {
        if *known == word {
            return Some(*node);
        }
    }
    None
}

/// How the node of this name is spelt, if there is one.
pub(crate) fn spelling(name: &str) -> Option<&'static str> {
    for (known, form) in &NODES {
        if *known == name {
            return Some(*form);
        }
    }
    None
}

/// The name of a node that is nearest to this word, if one is near: the first of those that take the fewest letters to
/// be put in, left out or changed, two at most.
pub(crate) fn nearest(alloc: Global, word: &str) -> Result<Option<&'static str>, NoMemory> {
    if word.len() > MAX_WORD {
        return Ok(None);
    }
    let mut nearest = None;
    let mut fewest = MAX_EDITS + 1;
    for (known, _) in &NODES {
        let edits = levenshtein(alloc, word, *known)?;
        if edits < fewest {
            fewest = edits;
            nearest = Some(*known);
        }
    }
    Ok(nearest)
}
