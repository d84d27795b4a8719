// The keywords of job files.
ghost use Rattle.std.specs.Prelude.{◌≡◌};
ghost use Rattle.lc_job.specs.Keys.{key_of, word};

/// A keyword of a job file.
#[derive(Clone, Copy, Debug, PartialEq, Eq)]
pub enum Key {
    Scene,
    Lights,
    Picture,
    Bounds,
    Eye,
    At,
    Size,
    Up,
    View,
    Grid,
    Seed,
    Error,
    Cut,
    White,
    Rule,
}

/// All keywords, those that have to stand first.
const KEYS: [Key; 15] = [
    Key::Scene,
    Key::Lights,
    Key::Picture,
    Key::Bounds,
    Key::Eye,
    Key::At,
    Key::Size,
    Key::Up,
    Key::View,
    Key::Grid,
    Key::Seed,
    Key::Error,
    Key::Cut,
    Key::White,
    Key::Rule,
];

impl Key {
    /// The keyword as it stands in a file.
    pub fn word(&self) -> &'static str
        ensures { result.now ≡ word self.now }
    {
        match self {
            Key::Scene => "scene",
            Key::Lights => "lights",
            Key::Picture => "picture",
            Key::Bounds => "bounds",
            Key::Eye => "eye",
            Key::At => "at",
            Key::Size => "size",
            Key::Up => "up",
            Key::View => "view",
            Key::Grid => "grid",
            Key::Seed => "seed",
            Key::Error => "error",
            Key::Cut => "cut",
            Key::White => "white",
            Key::Rule => "rule",
        }
    }

    /// The keyword that a field is, if it is one.
    #[tactic(auto, unfolding(crate::specs::Keys::key_of))]
    pub(crate) fn of(field: &[u8]) -> Option<Key>
        ensures { result ≡ key_of field.now }
    {
        KEYS.iter()
            .copied()
            .find(|key| field == key.word().as_bytes())
    }
}
