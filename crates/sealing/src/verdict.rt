// A verdict as it is remembered.
ghost use Rattle.std.specs.Prelude.{◌≡◌, Some};
ghost use Rattle.sealing.specs.Verdict.{known, is_yes};

// Nothing yet, yes or no. (An `Option<bool>` takes two bytes in Rattle, and the memory of all verdicts is cleared at each turn.)
#[derive(Clone, Copy)]
pub enum Verdict {
    Unknown,
    Yes,
    No,
}

impl Verdict {
    // The verdict that was found.
    pub fn of(yes: bool) -> Verdict
        ensures { known result ≡ Some yes }
    {
        if yes { Verdict::Yes } else { Verdict::No }
    }

    // What is remembered, if anything is.
    pub fn known(self) -> Option<bool>
        ensures { result ≡ known self }
    {
        match self {
            Verdict::Unknown => None,
            Verdict::Yes => Some(true),
            Verdict::No => Some(false),
        }
    }

    // Whether a yes is remembered.
    pub fn is_yes(self) -> bool
        ensures { result ≡ is_yes self }
    {
        matches!(self, Verdict::Yes)
    }
}
