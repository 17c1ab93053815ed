//! Worked plans.
ghost use Rattle.ext_one_report.specs.WorkedPlans.{ComputesAreNoRace, ComputesDoNot, FailsAlikeKeepApart, FailsUnlikeDoNot, FoundKeepsApart, LookAndPutDoNot, LooksBelowKeepApart, LooksKeepApart, OneByOneKeepsApart, OneTextAgrees, OwnPutsKeepApart, PutsAboveDoNot, ReplacedAgrees, TestsAreBeside, TestsAreRead, OneByOneAgrees, TwoFaultsAgree, TwoKeysKeepApart, TwoTextsDoNot, WorkedHasKeys, WorkedHasNumbers, WorkedIsRead, WorkedKeepsApart, WorkedAgrees, ClassSharesNone, ComputesShareValues, FirstShares, LooksAfterDoNot, LooksBehindShareValues, LooksBelowShareValues, RemovedDoNot, RemovedElsewhereShareValues, SecondShares};

/// Proves which of some small plans keep apart and whose closes agree, and that one plan
/// has all that `report_laws` asks. It does nothing when it runs.
pub fn worked_plans()
    ensures own_puts_keep_apart { OwnPutsKeepApart }
    ensures looks_keep_apart { LooksKeepApart }
    ensures looks_below_keep_apart { LooksBelowKeepApart }
    ensures two_keys_keep_apart { TwoKeysKeepApart }
    ensures one_by_one_keeps_apart { OneByOneKeepsApart }
    ensures puts_above_do_not { PutsAboveDoNot }
    ensures look_and_put_do_not { LookAndPutDoNot }
    ensures computes_are_no_race { ComputesAreNoRace }
    ensures computes_do_not { ComputesDoNot }
    ensures found_keeps_apart { FoundKeepsApart }
    ensures fails_alike_keep_apart { FailsAlikeKeepApart }
    ensures fails_unlike_do_not { FailsUnlikeDoNot }
    ensures two_faults_agree { TwoFaultsAgree }
    ensures replaced_agrees { ReplacedAgrees }
    ensures two_texts_do_not { TwoTextsDoNot }
    ensures one_text_agrees { OneTextAgrees }
    ensures one_by_one_agrees { OneByOneAgrees }
    ensures worked_keeps_apart { WorkedKeepsApart }
    ensures worked_agrees { WorkedAgrees }
    ensures worked_has_keys { WorkedHasKeys }
    ensures worked_has_numbers { WorkedHasNumbers }
    ensures worked_is_read { WorkedIsRead }
    ensures tests_are_beside { TestsAreBeside }
    ensures tests_are_read { TestsAreRead }
    ensures computes_share { ComputesShareValues }
    ensures looks_behind_share { LooksBehindShareValues }
    ensures looks_after_do_not { LooksAfterDoNot }
    ensures looks_below_share { LooksBelowShareValues }
    ensures removed_elsewhere_share { RemovedElsewhereShareValues }
    ensures removed_do_not { RemovedDoNot }
    ensures first_shares { FirstShares }
    ensures second_shares { SecondShares }
    ensures class_shares_none { ClassSharesNone }
{}
