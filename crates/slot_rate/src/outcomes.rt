// What the picture tells of the figures.
use crate::arguments::Request;
use picture::Outcome;
use rate::Figures;

// As many as there are options; the others are nothing.
pub fn outcomes(request: &Request<'_>, figures: &Figures) -> [Outcome; 32] {
    let mut outcomes = [Outcome::default(); 32];
    let told = request.options.rates.iter().zip(&figures.verdicts);
    for (outcome, (rate, verdict)) in outcomes.iter_mut().zip(told) {
        *outcome = Outcome {
            rate: *rate,
            backlog: verdict.backlog,
            grows: verdict.grows,
            fits: verdict.overflow == 0,
            overflow_store: verdict.overflow,
            overflow_tick: verdict.overflow_tick,
        };
    }
    outcomes
}

// The place of the option that is chosen.
pub fn place(request: &Request<'_>, figures: &Figures) -> Option<usize> {
    let choice = figures.choice?;
    request
        .options
        .rates
        .iter()
        .position(|rate| *rate == choice)
}
