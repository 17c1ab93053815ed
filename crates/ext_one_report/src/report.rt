//! Plans without races have one report.
ghost use Rattle.ext_races.specs.OneReports.{FreeKeepsApart, RaceFreeClosesAgree, RaceFreeSharesValues};
ghost use Rattle.ext_one_report.specs.OneReport.{NearReport, OneReport};

/// Proves that a run on several lanes that lacks nothing reports of each node what the plain run
/// does, if nodes keep apart.
///
/// That is: nodes that may run beside one another touch no place that one of them may change, unless
/// both have a factory there that fails with one text, or both find what a node above them has
/// computed, and leave no values in one context whose closes fail with different texts
/// (`one_report`). Where such nodes may also compute the same value in one place, all is the same but
/// who computed it and who found it: the totals are the same, and a node that shares no value has
/// exactly the same (`near`). The nodes of a plan without races
/// share values (`shares`), keep apart if they share none (`apart`), and their closes agree
/// (`closes`).
pub fn report_laws()
    ensures one_report { OneReport }
    ensures near { NearReport }
    ensures apart { FreeKeepsApart }
    ensures shares { RaceFreeSharesValues }
    ensures closes { RaceFreeClosesAgree }
{}
