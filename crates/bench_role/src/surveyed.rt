//! Surveys, to many respondents, and of many contexts with one.

pub const SURVEYOR: &str = "# usual 100 1000
    repeat n up i+1
    once send 0 0, take n
    and_repeat n receive 1 0, answer i+1 0, take n
    row n a survey, a respondent

    # usual 16 256
    repeat n open i+1
    once up 1
    repeat n send i i, take 1
    and_repeat n receive i i, answer 1 i, take 1
    row n a survey with a response, by contexts
";
