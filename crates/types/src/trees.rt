//! A SEQUENCE that holds values of its own type, read and written with a limit of levels.
//! Expected values are worked by hand from X.690, 8.9 and 8.10.
use asn1::{Any, Sequence, SequenceOf, decode, encode};
use bcder::Mode;
use bcder::decode::DecodeError;
use bcder::encode::EncodeError;
use std::alloc::Global;
use std::convert::Infallible;
use std::process::Abort;

/// A number, and trees below it.
///
///     Tree ::= SEQUENCE {
///         value     INTEGER (-128..127),
///         children  SEQUENCE OF Tree }
#[derive(Debug, Drop)]
pub struct Tree {
    /// The number.
    pub value: i8,

    /// The trees below it.
    pub children: Vec<Tree>,
}

/// One level of a tree.
type Level = Sequence<(i8, SequenceOf<Any>)>;

/// Why there is no tree, or why none is written.
#[derive(Debug, Drop)]
pub enum NoTree {
    /// The octets are none.
    Octets(DecodeError<Infallible>),
    /// It isn't written.
    Unwritten(EncodeError),
    /// It has more levels than it may have.
    TooDeep,
    /// Memory ran out.
    NoMemory,
}

/// Reads one level.
fn level_of(alloc: Global, value: Any) -> Result<Level, DecodeError<Infallible>> {
    value.decode_as::<Level>(alloc)
}

/// Writes one level.
fn level_written(alloc: Global, mode: Mode, level: &Level) -> Result<Any, NoTree> {
    match encode(alloc, mode, level) {
        Ok(captured) => match decode::<Any, _>(alloc, mode, captured) {
            Ok(value) => Ok(value),
            Err(error) => Err(NoTree::Octets(error)),
        },
        Err(error) => Err(NoTree::Unwritten(error)),
    }
}

/// Reads a tree of at most this many levels.
#[cycle(tree)]
pub fn tree_of(alloc: Global, value: Any, levels: u32) -> Result<Tree, NoTree> {
    if levels == 0 {
        return Err(NoTree::TooDeep);
    }
    match level_of(alloc, value) {
        Ok(Sequence((value, below))) => match trees_of(alloc, below, levels - 1) {
            Ok(children) => Ok(Tree { value, children }),
            Err(error) => Err(error),
        },
        Err(error) => Err(NoTree::Octets(error)),
    }
}

/// Reads the trees of a list.
#[cycle(tree)]
fn trees_of(alloc: Global, values: SequenceOf<Any>, levels: u32) -> Result<Vec<Tree>, NoTree> {
    let mut trees = Vec::new(alloc);
    for value in values.0 {
        match tree_of(alloc, value, levels) {
            Ok(tree) => match trees.push(tree) {
                Ok(()) => {}
                Err(_) => return Err(NoTree::NoMemory),
            },
            Err(error) => return Err(error),
        }
    }
    Ok(trees)
}

/// Writes a tree of at most this many levels.
#[cycle(written)]
pub fn written(alloc: Global, mode: Mode, tree: &Tree, levels: u32) -> Result<Any, NoTree> {
    if levels == 0 {
        return Err(NoTree::TooDeep);
    }
    match all_written(alloc, mode, &tree.children, levels - 1) {
        Ok(below) => level_written(alloc, mode, &Sequence((tree.value, SequenceOf(below)))),
        Err(error) => Err(error),
    }
}

/// Writes the trees of a list.
#[cycle(written)]
fn all_written(
    alloc: Global,
    mode: Mode,
    trees: &Vec<Tree>,
    levels: u32,
) -> Result<Vec<Any>, NoTree> {
    let mut all = Vec::new(alloc);
    for tree in trees {
        match written(alloc, mode, tree, levels) {
            Ok(value) => match all.push(value) {
                Ok(()) => {}
                Err(_) => return Err(NoTree::NoMemory),
            },
            Err(error) => return Err(error),
        }
    }
    Ok(all)
}

/// Octets, and the tree of at most three levels that they are.
const TREES: [(Mode, &[u8], &str); 9] = [
    (
        Mode::Der,
        &[0x30, 0x05, 0x02, 0x01, 0x07, 0x30, 0x00],
        "Tree { value: 7, children: [] }",
    ),
    // -1 and 2 below 1
    (
        Mode::Der,
        &[
            0x30, 0x13, 0x02, 0x01, 0x01, 0x30, 0x0E, 0x30, 0x05, 0x02, 0x01, 0xFF, 0x30, 0x00,
            0x30, 0x05, 0x02, 0x01, 0x02, 0x30, 0x00,
        ],
        "Tree { value: 1, children: [Tree { value: -1, children: [] }, \
        Tree { value: 2, children: [] }] }",
    ),
    // three levels, and four
    (
        Mode::Der,
        &[
            0x30, 0x13, 0x02, 0x01, 0x01, 0x30, 0x0E, 0x30, 0x0C, 0x02, 0x01, 0x02, 0x30, 0x07,
            0x30, 0x05, 0x02, 0x01, 0x03, 0x30, 0x00,
        ],
        "Tree { value: 1, children: [Tree { value: 2, children: \
        [Tree { value: 3, children: [] }] }] }",
    ),
    (
        Mode::Der,
        &[
            0x30, 0x1A, 0x02, 0x01, 0x01, 0x30, 0x15, 0x30, 0x13, 0x02, 0x01, 0x02, 0x30, 0x0E,
            0x30, 0x0C, 0x02, 0x01, 0x03, 0x30, 0x07, 0x30, 0x05, 0x02, 0x01, 0x04, 0x30, 0x00,
        ],
        "TooDeep",
    ),
    // indefinite lengths
    (
        Mode::Cer,
        &[
            0x30, 0x80, 0x02, 0x01, 0x01, 0x30, 0x80, 0x30, 0x80, 0x02, 0x01, 0x02, 0x30, 0x80,
            0x00, 0x00, 0x00, 0x00, 0x00, 0x00, 0x00, 0x00,
        ],
        "Tree { value: 1, children: [Tree { value: 2, children: [] }] }",
    ),
    // no list; 128; a value that is no tree, and one behind the list; cut
    (Mode::Der, &[0x30, 0x03, 0x02, 0x01, 0x07], "refused"),
    (
        Mode::Der,
        &[0x30, 0x06, 0x02, 0x02, 0x00, 0x80, 0x30, 0x00],
        "refused",
    ),
    (
        Mode::Der,
        &[0x30, 0x07, 0x02, 0x01, 0x07, 0x30, 0x02, 0x05, 0x00],
        "refused",
    ),
    (
        Mode::Der,
        &[0x30, 0x07, 0x02, 0x01, 0x07, 0x30, 0x00, 0x05, 0x00],
        "refused",
    ),
];

/// Reads a tree of at most three levels.
fn read(alloc: Global, mode: Mode, octets: &[u8]) -> Result<Tree, NoTree> {
    match decode::<Any, &[u8]>(alloc, mode, octets) {
        Ok(value) => tree_of(alloc, value, 3),
        Err(error) => Err(NoTree::Octets(error)),
    }
}

/// Returns how what was read is shown.
fn shown(rt: &impl Abort, alloc: Global, mode: Mode, octets: &[u8]) -> String {
    let text = match read(alloc, mode, octets) {
        Ok(tree) => format!(in alloc; "{tree:?}"),
        Err(NoTree::Octets(_)) => format!(in alloc; "refused"),
        Err(error) => format!(in alloc; "{error:?}"),
    };
    text.expect(rt, "refused")
}

#[test]
fn trees_hold_trees(rt: HostRuntime) {
    for (mode, octets, wanted) in &TREES {
        let found = shown(&rt, rt.alloc(), *mode, octets);
        assert_eq!(rt; found.as_str(), *wanted, "{octets:?}");
    }
}

/// Asserts that a tree is written as these octets, and not if it has more levels than it may have.
fn is_written(rt: &impl Abort, alloc: Global, mode: Mode, tree: &Tree, octets: &[u8]) {
    let again = written(alloc, mode, tree, 3).expect(rt, "refused");
    assert_eq!(rt; again.as_slice(), octets, "in {mode:?}");
    let refused = written(alloc, mode, tree, 0);
    assert!(rt; matches!(refused, Err(NoTree::TooDeep)));
}

#[test]
fn trees_are_written(rt: HostRuntime) {
    for (mode, octets, _) in &TREES {
        if let Ok(tree) = read(rt.alloc(), *mode, octets) {
            is_written(&rt, rt.alloc(), *mode, &tree, octets);
        }
    }
}

#[test]
fn a_tree_that_is_too_deep_is_not_written(rt: HostRuntime) {
    let (mode, octets, _) = TREES[2];
    let tree = read(rt.alloc(), mode, octets).expect(&rt, "refused");
    let refused = written(rt.alloc(), mode, &tree, 2);
    assert!(rt; matches!(refused, Err(NoTree::TooDeep)));
}
