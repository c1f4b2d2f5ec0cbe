// The commands, and the options that each has.
ghost use Rattle.std.specs.Prelude.{◌≡◌};
ghost use Rattle.tapa_words.specs.Words.{verb_of, option_kind};

// The commands.
#[derive(Clone, Copy)]
pub(crate) enum Verb {
    Running,
    Building,
    Planning,
    Simulating,
    Showing,
    Generating,
}

// Whether an option has a value.
#[derive(Clone, Copy)]
pub(crate) enum OptionKind {
    Valued,
    Bare,
}

impl Verb {
    /// The command of this name.
    pub(crate) fn named(word: &str) -> Option<Self>
        ensures { result ≡ verb_of word.now }
    {
        if word == "run" {
            Some(Verb::Running)
        } else if word == "build" {
            Some(Verb::Building)
        } else if word == "plan" {
            Some(Verb::Planning)
        } else if word == "cosim" {
            Some(Verb::Simulating)
        } else if word == "vcd" {
            Some(Verb::Showing)
        } else if word == "gen" {
            Some(Verb::Generating)
        } else {
            None
        }
    }

    /// What the option of this name is, where the command has one.
    pub(crate) fn option(self, name: &str) -> Option<OptionKind>
        ensures { result ≡ option_kind self name.now }
    {
        let valued = Some(OptionKind::Valued);
        let bare = Some(OptionKind::Bare);
        match self {
            Verb::Running if name == "--workers" => valued,
            Verb::Running if name == "--steps" => valued,
            Verb::Building if name == "--device" => valued,
            Verb::Building if name == "--plan" => valued,
            Verb::Building if name == "--no-balance" => bare,
            Verb::Planning if name == "--plan" => valued,
            Verb::Simulating if name == "--cycles" => valued,
            Verb::Simulating if name == "--vcd" => bare,
            Verb::Generating if name == "--workers" => valued,
            _ => None,
        }
    }
}
