//! How deep a value stands in a certificate.

ghost use Rattle.std.specs.Prelude.{◌≡◌};
ghost use Rattle.cert_json.specs.Trim.{below, exceeds, keeps_first};

/// How deep a value stands in a certificate.
#[derive(Clone, Copy)]
pub enum Level {
    /// The file: it has 2 names.
    File,
    /// What stands in the file: a number, and the list of nodes.
    FileMember,
    /// What stands in that list: nodes, which have 6 names.
    Node,
    /// What stands in a node: the equations have any number of names.
    NodeMember,
    /// What stands deeper.
    Deeper,
}

impl Level {
    /// The level of what stands in a value of this one.
    #[inline(always)]
    pub fn below(self) -> Level
        ensures { result ≡ below self }
    {
        match self {
            Level::File => Level::FileMember,
            Level::FileMember => Level::Node,
            Level::Node => Level::NodeMember,
            Level::NodeMember => Level::Deeper,
            Level::Deeper => Level::Deeper,
        }
    }

    /// Whether so many names are more than an object of a certificate has at this level.
    #[inline(always)]
    pub fn exceeds(self, names: usize) -> bool
        ensures { result ≡ exceeds self names }
    {
        match self {
            Level::File => names > 2,
            Level::FileMember => names > 0,
            Level::Node => names > 6,
            Level::NodeMember => false,
            Level::Deeper => names > 0,
        }
    }

    /// Whether the first names of an object at this level are kept.
    #[inline(always)]
    pub fn keeps_first(self) -> bool
        ensures { result ≡ keeps_first self }
    {
        match self {
            Level::NodeMember => true,
            Level::File | Level::FileMember | Level::Node | Level::Deeper => false,
        }
    }
}
