ghost use Rattle.std.specs.Prelude.{◌≡◌, IfSome, IfNone, ℕ};
ghost use Rattle.option_words.specs.Options.{name_of, least_of, greatest_of, has_option};
ghost use Rattle.option_words.specs.Reading.{place_of};

/// The forms of a command line that have options.
#[derive(Clone, Copy)]
pub enum Form {
    /// `launch`.
    Launch,
    /// `restart`.
    Restart,
    /// `ring`.
    Ring,
}

/// The options whose value is a number.
#[derive(Clone, Copy)]
pub enum OptionKey {
    /// `--nodes`.
    Nodes,
    /// `--workers`.
    Workers,
    /// `--every`.
    Every,
    /// `--records`.
    Records,
    /// `--shift`.
    Shift,
    /// `--pid-base`.
    PidBase,
    /// `--port-base`.
    PortBase,
}

impl OptionKey {
    /// The option with this name. `None` exactly where there is none.
    pub fn named(word: &str) -> Option<Self>
        ensures some { IfSome result (λ key. word.now ≡ name_of key) }
        ensures none { IfNone result ((key : OptionKey) → word.now ≡ name_of key → ⊥) }
    {
        match word {
            "--nodes" => Some(OptionKey::Nodes),
            "--workers" => Some(OptionKey::Workers),
            "--every" => Some(OptionKey::Every),
            "--records" => Some(OptionKey::Records),
            "--shift" => Some(OptionKey::Shift),
            "--pid-base" => Some(OptionKey::PidBase),
            "--port-base" => Some(OptionKey::PortBase),
            _ => None,
        }
    }

    /// The least number that it may have.
    pub fn least(self) -> u32
        ensures { result ≡ least_of self }
    {
        match self {
            OptionKey::Workers | OptionKey::Shift => 0,
            OptionKey::PortBase => 1_024,
            _ => 1,
        }
    }

    /// The greatest number that it may have.
    pub fn greatest(self) -> u32
        ensures { result ≡ greatest_of self }
    {
        match self {
            OptionKey::Nodes => 16,
            OptionKey::Workers => 64,
            OptionKey::Every | OptionKey::Records => 4_000_000,
            OptionKey::Shift => 15,
            OptionKey::PidBase => 1_000_000_000,
            OptionKey::PortBase => 57_344,
        }
    }

    /// Its place in the order of this type.
    pub fn place(self) -> usize
        ensures { result ≡ place_of self }
    {
        match self {
            OptionKey::Nodes => 0,
            OptionKey::Workers => 1,
            OptionKey::Every => 2,
            OptionKey::Records => 3,
            OptionKey::Shift => 4,
            OptionKey::PidBase => 5,
            OptionKey::PortBase => 6,
        }
    }
}

impl Form {
    /// Whether a command line of this form may give the option.
    pub fn has(self, key: OptionKey) -> bool
        ensures { result ≡ has_option self key }
    {
        match self {
            Form::Launch => match key {
                OptionKey::Shift | OptionKey::PidBase | OptionKey::PortBase => false,
                _ => true,
            },
            Form::Restart => true,
            Form::Ring => match key {
                OptionKey::Workers | OptionKey::Every => true,
                _ => false,
            },
        }
    }
}
