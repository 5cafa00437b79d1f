//! What holds of the definitions, on every history. Each function does nothing: its contract is a law.
ghost use Rattle.sched_plan.specs.Laws.{WholeFactorsAgree, StartsAreNotBefore};

/// `Plan::exponential_milli` of 1,000 times a factor answers as `Plan::exponential` of that factor does.
pub fn whole_factors_agree()
    ensures { WholeFactorsAgree }
{}

/// No plan goes on before the event that it answers, whatever changes its delays.
pub fn starts_are_not_before()
    ensures { StartsAreNotBefore }
{}
