//! What is true of the plain run of every plan, whichever steps lack memory.
ghost use Rattle.ext_plan_plain.specs.Ancestors.{SkipsBelow};
ghost use Rattle.ext_plan_plain.specs.PlainRunLaws.{HasResultOfEachNode, HasTestsOfPlan, RunsEachNode, DoesOrLacks, RunsAsPlanned, RunsNode, RunsBody, SkipsBody, RunsParents, OpensClear, MakesNoClaims, SealsContexts, KeepsValues, KeepsLimits, NumbersOnce, KeepsNumbers, KnowsNumbers, ChangesNothingUnnumbered, NumbersOnlyNamed, HasRoom, FindsWhatWasPut, KeepsFault, KeepsNoFault, NeverFaults};

/// Proves the laws of the plain run: of its results, its order, the values and faults that it
/// finds, and what it seals.
///
/// Source: JUnit 5 User Guide, section "Keeping State in Extensions", for closed contexts. The
/// order of results, and which nodes are skipped, are own rules.
pub fn plain_run_laws()
    ensures results { HasResultOfEachNode }
    ensures tests { HasTestsOfPlan }
    ensures lacking { DoesOrLacks }
    ensures planned { RunsAsPlanned }
    ensures each_node { RunsEachNode }
    ensures runs { RunsNode }
    ensures body { RunsBody }
    ensures skipped { SkipsBody }
    ensures parents { RunsParents }
    ensures ancestors { SkipsBelow }
    ensures opening { OpensClear }
    ensures unclaimed { MakesNoClaims }
    ensures sealed { SealsContexts }
    ensures values { KeepsValues }
    ensures limits { KeepsLimits }
    ensures numbered_once { NumbersOnce }
    ensures numbers { KeepsNumbers }
    ensures known { KnowsNumbers }
    ensures unnumbered { ChangesNothingUnnumbered }
    ensures named_alone { NumbersOnlyNamed }
    ensures room { HasRoom }
    ensures found { FindsWhatWasPut }
    ensures kept_fault { KeepsFault }
    ensures no_fault { KeepsNoFault }
    ensures faultless { NeverFaults }
{}
