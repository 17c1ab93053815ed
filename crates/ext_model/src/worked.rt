//! Worked histories, as the contract of a function that does nothing.
ghost use Rattle.ext_model.specs.Worked.{FoundFromBelow, RemovedNothing, Replaced, ReplacedWord, RemovedWord, HeldHides, HeldIsBusy, HeldIsNotFilledByOthers, HeldIsNotSealed, FilledStands, AbandonedIsEmpty, OwnEvents, FailedIsMet, FailedStands, FailedIsReplaced, FailedIsRemoved, FailedIsPassed, RemainingPassesFault, RemainingFalls, SealedIsClosed, SealedAgain, ClosedHides, NumbersRunOut, PresentWord, FailedWord, SealedWord, EmptyWord, LastPut, NoClaimAtLastPut, NoPutAfterLast};
ghost use Rattle.ext_model.specs.WorkedCalls.{CallHasOneFront, AnsweredNow, NotFromMemory, RootIsLegal, NotWithAnothersNumber, NotTwice, NotWithoutClaim, RemoveAnswered, PutAnswered, NoAnswerWithoutStep, SecondLookFinds, TwoFronts, EitherPoint, OvertakenByOne, NotOvertakenByTwo, NotOvertakenByLagging, NotCrowdedByItself, SixAreLegal, NotByAnotherLane, KeptFaultIsLegal, NotWithoutKeeping};

/// Proves what the definitions give on small histories: values, claims, kept faults, seals, words,
/// versions at their limits, and fronts. It does nothing when it runs.
pub fn worked_histories()
    ensures found_from_below { FoundFromBelow }
    ensures removed_nothing { RemovedNothing }
    ensures replaced { Replaced }
    ensures replaced_word { ReplacedWord }
    ensures removed_word { RemovedWord }
    ensures held_hides { HeldHides }
    ensures held_is_busy { HeldIsBusy }
    ensures held_is_not_filled_by_others { HeldIsNotFilledByOthers }
    ensures held_is_not_sealed { HeldIsNotSealed }
    ensures filled_stands { FilledStands }
    ensures abandoned_is_empty { AbandonedIsEmpty }
    ensures own_events { OwnEvents }
    ensures failed_is_met { FailedIsMet }
    ensures failed_stands { FailedStands }
    ensures failed_is_replaced { FailedIsReplaced }
    ensures failed_is_removed { FailedIsRemoved }
    ensures failed_is_passed { FailedIsPassed }
    ensures remaining_passes_fault { RemainingPassesFault }
    ensures remaining_falls { RemainingFalls }
    ensures sealed_is_closed { SealedIsClosed }
    ensures sealed_again { SealedAgain }
    ensures closed_hides { ClosedHides }
    ensures numbers_run_out { NumbersRunOut }
    ensures present_word { PresentWord }
    ensures failed_word { FailedWord }
    ensures sealed_word { SealedWord }
    ensures empty_word { EmptyWord }
    ensures last_put { LastPut }
    ensures no_claim_at_last_put { NoClaimAtLastPut }
    ensures no_put_after_last { NoPutAfterLast }
    ensures call_has_one_front { CallHasOneFront }
    ensures answered_now { AnsweredNow }
    ensures not_from_memory { NotFromMemory }
    ensures remove_answered { RemoveAnswered }
    ensures put_answered { PutAnswered }
    ensures no_answer_without_step { NoAnswerWithoutStep }
    ensures second_look_finds { SecondLookFinds }
    ensures two_fronts { TwoFronts }
    ensures either_point { EitherPoint }
    ensures overtaken_by_one { OvertakenByOne }
    ensures not_overtaken_by_two { NotOvertakenByTwo }
    ensures not_overtaken_by_lagging { NotOvertakenByLagging }
    ensures not_crowded_by_itself { NotCrowdedByItself }
    ensures six_are_legal { SixAreLegal }
    ensures root_is_legal { RootIsLegal }
    ensures not_by_another_lane { NotByAnotherLane }
    ensures not_with_anothers_number { NotWithAnothersNumber }
    ensures not_twice { NotTwice }
    ensures kept_fault_is_legal { KeptFaultIsLegal }
    ensures not_without_keeping { NotWithoutKeeping }
    ensures not_without_claim { NotWithoutClaim }
{}
