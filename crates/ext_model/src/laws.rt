//! Laws of look-ups, acts, histories, words and calls, as the contracts of functions that do
//! nothing.
ghost use Rattle.ext_model.specs.CallLaws.{StepsAreCalls, EventsAreCalls, CallsCompose, FrontsCompose, FirstStepDecides, FirstStepIsEarlier, SeenGoesOn, PointsAreLegal, AnswerPointsArePoints, LaterPointsServe, EarlierPointsServe, StepsStay, PointsOfSecond, PointsOfFirst, AnswersComeFirst, SeenIsPoint, OvertakenIsCrowded, QuietCrowdedIsOvertaken, CrowdedBySecond, CrowdedByFirst, ClaimsAreHeld, HeldWordsStay, HeldCellsMayBeFilled, HeldCellsMayBeFailed, HeldCellsMayBeAbandoned, OwnNumbersMayBeStored};
ghost use Rattle.ext_model.specs.ClosingLaws.{RemainingIsSo, RemainingIsOne, NothingFollowsClose, ClosedStaysClosed, RemainingStays, RemainingAreValues, SecondLooksStand};
ghost use Rattle.ext_model.specs.HistoryLaws.{PrefixesAreLegal, AllowedEventsFollow, EmptyIsLegal, LegalInduction, AllowedByCases, QuietIsNoEvent, RemoveBetweenFills, RemoveAfterFail, NothingFollowsSeal, ClaimsStand, NumbersAreDrawnOnce, NumbersAreStoredOnce, LanesStoreOwnNumbers, OwnPastSuffices, UsedCellsAreWithin, EventsAreByLanes, NoLaneNoEvent, FaultsWereKept, ValuesAreNoFaults, SealsKeepNoFaults, NoFaults, KeepingAddsFails};
ghost use Rattle.ext_model.specs.WordLaws.{EventChangesItsWord, OtherWordsStay, CountChangesByAct, QuietCellsKeepWords, QuietCellsStay, EqualWordsLeaveNoEvent, VersionsRiseWithEvents, UnequalWordsRaiseVersions, NumbersFit, VersionsFit, ClaimsCanEnd, CellsCanBeSealed, WordsBetweenAreEqual, WordsTellParts};
ghost use Rattle.ext_model.specs.StateLaws.{NearestDecides, EmptyPathIsAbsent, MetFaultStands, PutIsFound, FaultIsMet, PlacesAreTold, OthersStay, SealsStay, SealPassesFault, ClaimsStay, AbandonUndoesClaim};

/// Proves the laws of look-ups and of acts on one state.
///
/// JUnit 5 User Guide, section "Keeping State in Extensions", for look-ups; claims, kept faults and
/// seals are own rules.
pub fn store_laws()
    ensures nearest { NearestDecides }
    ensures absent { EmptyPathIsAbsent }
    ensures fault_stands { MetFaultStands }
    ensures found { PutIsFound }
    ensures fault_met { FaultIsMet }
    ensures places { PlacesAreTold }
    ensures others { OthersStay }
    ensures seals { SealsStay }
    ensures seal_passes_fault { SealPassesFault }
    ensures claims { ClaimsStay }
    ensures abandoned { AbandonUndoesClaim }
{}

/// Proves the laws of histories.
pub fn history_laws()
    ensures prefixes { PrefixesAreLegal }
    ensures one_more { AllowedEventsFollow }
    ensures empty { EmptyIsLegal }
    ensures induction { LegalInduction }
    ensures by_cases { AllowedByCases }
    ensures quiet { QuietIsNoEvent }
    ensures by_lanes { EventsAreByLanes }
    ensures no_lane { NoLaneNoEvent }
    ensures fills { RemoveBetweenFills }
    ensures fails { RemoveAfterFail }
    ensures seals { NothingFollowsSeal }
    ensures claims { ClaimsStand }
    ensures within { UsedCellsAreWithin }
    ensures drawn_once { NumbersAreDrawnOnce }
    ensures stored_once { NumbersAreStoredOnce }
    ensures own_numbers { LanesStoreOwnNumbers }
    ensures own_past { OwnPastSuffices }
    ensures faults { FaultsWereKept }
    ensures values { ValuesAreNoFaults }
    ensures sealed_values { SealsKeepNoFaults }
    ensures no_faults { NoFaults }
    ensures keeping { KeepingAddsFails }
{}

/// Proves the laws of words and versions.
pub fn word_laws()
    ensures event { EventChangesItsWord }
    ensures elsewhere { OtherWordsStay }
    ensures count { CountChangesByAct }
    ensures quiet_words { QuietCellsKeepWords }
    ensures quiet_cells { QuietCellsStay }
    ensures equal_words { EqualWordsLeaveNoEvent }
    ensures words_between { WordsBetweenAreEqual }
    ensures versions { VersionsRiseWithEvents }
    ensures unequal_words { UnequalWordsRaiseVersions }
    ensures parts { WordsTellParts }
    ensures numbers_fit { NumbersFit }
    ensures versions_fit { VersionsFit }
    ensures claims_end { ClaimsCanEnd }
    ensures seals_left { CellsCanBeSealed }
{}

/// Proves the laws of calls that follow one another on a lane.
pub fn call_laws()
    ensures step { StepsAreCalls }
    ensures event { EventsAreCalls }
    ensures compose { CallsCompose }
    ensures fronts { FrontsCompose }
    ensures first_step { FirstStepDecides }
    ensures earlier_step { FirstStepIsEarlier }
    ensures seen { SeenGoesOn }
    ensures legal_points { PointsAreLegal }
    ensures answer_points { AnswerPointsArePoints }
    ensures later_points { LaterPointsServe }
    ensures earlier_points { EarlierPointsServe }
    ensures steps { StepsStay }
    ensures points_of_second { PointsOfSecond }
    ensures points_of_first { PointsOfFirst }
    ensures answers_first { AnswersComeFirst }
    ensures seen_point { SeenIsPoint }
    ensures overtaken { OvertakenIsCrowded }
    ensures quiet_crowded { QuietCrowdedIsOvertaken }
    ensures crowded_second { CrowdedBySecond }
    ensures crowded_first { CrowdedByFirst }
    ensures held_claims { ClaimsAreHeld }
    ensures held_words { HeldWordsStay }
    ensures fills { HeldCellsMayBeFilled }
    ensures fails { HeldCellsMayBeFailed }
    ensures abandons { HeldCellsMayBeAbandoned }
    ensures own_numbers { OwnNumbersMayBeStored }
{}

/// Proves the laws of closed contexts and of second looks.
pub fn closing_laws()
    ensures remaining { RemainingIsSo }
    ensures one_list { RemainingIsOne }
    ensures nothing_follows { NothingFollowsClose }
    ensures stays_closed { ClosedStaysClosed }
    ensures stays_remaining { RemainingStays }
    ensures values_remain { RemainingAreValues }
    ensures second_look { SecondLooksStand }
{}
