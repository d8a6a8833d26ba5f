// The word that a line begins with.
ghost use Rattle.std.specs.Prelude.{◌≡◌};
ghost use Rattle.schedule.specs.Reading.{verb_of};

#[derive(Clone, Copy)]
pub enum Verb {
    Setup,
    Join,
    Leave,
    Send,
    Give,
    All,
    Turn,
    Lie,
    Unknown,
}

// The words that come most often are asked first.
#[tactic(auto, unfolding(crate::specs::Reading::verb_of))]
pub fn verb_of(line: &[u8]) -> Verb
    ensures { result ≡ verb_of line.now }
{
    match line {
        [b't', b'u', b'r', b'n', ..] => Verb::Turn,
        [b'a', b'l', b'l', ..] => Verb::All,
        [b'g', b'i', b'v', b'e', ..] => Verb::Give,
        [b'j', b'o', b'i', b'n', ..] => Verb::Join,
        [b'l', b'e', b'a', b'v', b'e', ..] => Verb::Leave,
        [b's', b'e', b'n', b'd', ..] => Verb::Send,
        [b's', b'e', b't', b'u', b'p', ..] => Verb::Setup,
        [b'l', b'i', b'e', ..] => Verb::Lie,
        _ => Verb::Unknown,
    }
}
