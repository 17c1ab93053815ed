//! Laws of a selection, each the contract of an empty function.
ghost use Rattle.ext_selection.specs.SelectionLaws.{PartsShareTests, TestsStayWanted};

/// Proves that the parts of a suite share the wanted tests: each is wanted in exactly one part.
pub fn parts_share_tests()
    ensures { PartsShareTests }
{}

/// Proves that tests stay wanted, and in their part, when others are added.
pub fn tests_stay_wanted()
    ensures { TestsStayWanted }
{}
