// Why a call is refused. Hosts and programs tell a refusal by its number, 0 stands for success.
#![tactic(auto)]

ghost use Rattle.std.specs.Prelude.{◌≡◌};
ghost use Rattle.answers.specs.Numbers.{number_of, refusal_number};

// The refusals, in the order of their numbers.
#[derive(Clone, Copy, PartialEq, Eq, Debug)]
pub enum Refusal {
    // the tree, or the text to blank, is too long
    Length,
    // the tree's layout or one of its limits is broken
    Layout,
    // a path has a tab or LF, starts with #, is not UTF-8 or does not rise
    Path,
    // a text of the tree is not UTF-8
    Text,
    // work is shorter than the tree, the output of blanking than its text, or what is lent for counts than the counts
    Work,
    // fewer sums are lent than the tree has files
    Sums,
    // the baseline is too long
    Baseline,
    // the tree has more functions than 8,192, or than the records lent have room for
    Functions,
    // the output is shorter than the listing
    Output,
}

impl From<Refusal> for u32 {
    ghost from_gives = { λ r n. n ≡ number_of r };

    fn from(refusal: Refusal) -> u32 {
        match refusal {
            Refusal::Length => 1,
            Refusal::Layout => 2,
            Refusal::Path => 3,
            Refusal::Text => 4,
            Refusal::Work => 5,
            Refusal::Sums => 6,
            Refusal::Baseline => 7,
            Refusal::Functions => 8,
            Refusal::Output => 9,
        }
    }
}

// The number of a call's answer, 0 on success.
pub fn number<T: Drop>(answer: Result<T, Refusal>) -> u32
    ensures { result ≡ refusal_number answer }
{
    match answer {
        Ok(_) => 0,
        Err(refusal) => u32::from(refusal),
    }
}
