//! Laws of trees and keys, each the contract of an empty function.
ghost use Rattle.ext_tree.specs.KeyPlaceLaws.{KeyNumbersTell, PlacingTells, SharedNotesAgree};
ghost use Rattle.ext_tree.specs.TreeLaws.{FaultsTell, TestTells, PathsAreUnique, ParentsListChildren, NumbersTell, CellsTell, NamespacesTell};

/// Proves the laws of trees: faults, the test for trees, paths and children.
pub fn tree_laws()
    ensures faults { FaultsTell }
    ensures decided { TestTells }
    ensures paths { PathsAreUnique }
    ensures children { ParentsListChildren }
{}

/// Proves the laws of namespaces, numbers of keys and cells.
pub fn key_laws()
    ensures namespaces { NamespacesTell }
    ensures numbers { NumbersTell }
    ensures cells { CellsTell }
{}

/// Proves the laws of the numbers of keys that are numbered during a run.
pub fn key_place_laws()
    ensures numbers { KeyNumbersTell }
    ensures shared { SharedNotesAgree }
    ensures placing { PlacingTells }
{}
