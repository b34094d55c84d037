// The causes for which a call refuses, as document 01's table lists them. Upstream panics, or has no such case.
#![tactic(auto)]

ghost use Rattle.std.specs.Prelude.{◌≡◌};
ghost use Rattle.refusal.specs.Answer.{answered, answer_of};
ghost use Rattle.refusal.specs.Table.{number_of};

#[derive(Clone, Copy)]
pub enum Cause {
    // A point or vector outside the domain, with its index; of several the lowest.
    OutsideDomain(usize),
    // No corner or point given, a count of 0, or a remove at count 1.
    NoPoint,
    // A 65th corner or point, or a count above 64.
    TooManyPoints,
    // An index not below the count (for insert: above it).
    NoSuchIndex,
    // A latitude, sine or cosine that is not finite or out of its range.
    NoSuchParallel,
    // A crossing or cone centre to be answered that is not finite.
    NotFinite,
    // A wrong file trailer.
    WrongTrailer,
    // A lent output that is too short, with the length needed.
    ShortOutput(usize),
    // Zone bounds that fail an assertion of `Zone::new`.
    ZoneBounds,
}

// The cause's number in the table: a call of the manual, which C's numbers are made of.
pub fn number(cause: Cause) -> u64
    ensures { result ≡ number_of cause }
{
    match cause {
        Cause::OutsideDomain(_) => 1,
        Cause::NoPoint => 2,
        Cause::TooManyPoints => 3,
        Cause::NoSuchIndex => 4,
        Cause::NoSuchParallel => 5,
        Cause::NotFinite => 6,
        Cause::WrongTrailer => 7,
        Cause::ShortOutput(_) => 8,
        Cause::ZoneBounds => 9,
    }
}

// The answer of a question: a call of the manual. `Ok` says the same.
pub fn decide(yes: bool) -> Result<bool, Cause>
    ensures { answer_of result ≡ answered yes }
{
    Ok(yes)
}
