// What LEAST, WHY and TERMS mean. Each function's contract is a law about them, so that the law is proved in every check.
#![tactic(auto)]

ghost use Rattle.laws.specs.Laws.{LeastLaw, LeastAlike, WhyLaw, WhyAlike, TermsLaw, TermsAlike, RecordsLaw};
ghost use Rattle.laws.specs.Positions.{Positions};

// LEAST: nothing passes, or the answer passes and every other setting that passes has a greater number.
pub fn least_law()
    ensures earliest_or_none { LeastLaw }
{}

// LEAST depends only on which settings pass.
pub fn least_alike()
    ensures same_earliest { LeastAlike }
{}

// WHY: the held literals are not enough, or the answer is enough, every other enough choice has a greater number and no part of it is enough.
pub fn why_law()
    ensures smallest_reason_or_none { WhyLaw }
{}

// WHY depends only on which settings are allowed.
pub fn why_alike()
    ensures same_reason { WhyAlike }
{}

// TERMS: a complete card of terms none of which can be shorter or left out; or a setting that both sheets allow; or 64 terms and one more wanted.
pub fn terms_law()
    ensures card_or_refusal { TermsLaw }
{}

// TERMS depends only on which settings the two sheets allow.
pub fn terms_alike()
    ensures same_card { TermsAlike }
{}

// The record of a term covers what the term covers, and wants no contact both ways.
pub fn records_law()
    ensures record_covers_same { RecordsLaw }
{}

// The worked positions.
pub fn worked_positions()
    ensures table { Positions }
{}
