//! What a router knows of itself: its start, the height that it uses, and what it has announced.

ghost use Rattle.std.specs.Prelude.{◌≡◌, ◌<◌, ◌≤◌, ◌+◌, ◌^◌, ◌↔◌, IsTrue};

/// What a router knows of itself. It keeps the last height that it has announced. It also keeps two numbers of
/// announcements: since the first no announced height was below the height in use, and since the second none was below
/// the last height. An acknowledgement of an earlier announcement opens no gate.
#[derive(Clone, Copy, Debug, PartialEq, Eq)]
pub(crate) struct Own {
    pub(crate) me: u32,
    pub(crate) boot: u64,
    /// The height in use.
    pub(crate) used: u64,
    /// The last height that was announced.
    pub(crate) announced: u64,
    /// The number of the last announcement.
    pub(crate) number: u64,
    /// From this number on, each announced height is at least the height in use.
    pub(crate) used_since: u64,
    /// From this number on, each announced height is at least the last one.
    pub(crate) announced_since: u64,
}

impl Own {
    /// A router that starts, with its first announcement.
    pub(crate) fn new(me: u32, boot: u64, height: u64) -> Own
        ensures who { (result.me ≡ me) × (result.boot ≡ boot) }
        ensures heights { (result.used ≡ height) × (result.announced ≡ height) }
        ensures numbers { (result.number ≡ 1) × (result.used_since ≡ 1) × (result.announced_since ≡ 1) }
    {
        Own {
            me,
            boot,
            used: height,
            announced: height,
            number: 1,
            used_since: 1,
            announced_since: 1,
        }
    }

    /// Whether the last height that was announced is in use.
    pub(crate) fn uses_announced(&self) -> bool
        ensures { IsTrue result ↔ (self.now.used ≡ self.now.announced) }
    {
        self.used == self.announced
    }

    /// After the announcement of a greater height, which is not in use yet.
    pub(crate) fn announce_raised(self, height: u64) -> Own
        requires { self.number + 1 < 2 ^ 64 }
        ensures { result ≡ record self {
          announced = height;
          number = self.number + 1;
          announced_since = self.number + 1;
        } }
    {
        Own {
            announced: height,
            number: self.number + 1,
            announced_since: self.number + 1,
            ..self
        }
    }

    /// After the announcement of a height that is not greater. It is in use at once.
    pub(crate) fn announce_lowered(self, height: u64) -> Own
        requires { self.number + 1 < 2 ^ 64 }
        ensures { result ≡ record self { used = height; announced = height; number = self.number + 1 } }
    {
        Own {
            used: height,
            announced: height,
            number: self.number + 1,
            ..self
        }
    }

    /// With the last height that was announced in use.
    pub(crate) fn with_announced_used(self) -> Own
        ensures { result ≡ record self { used = self.announced; used_since = self.announced_since } }
    {
        Own {
            used: self.announced,
            used_since: self.announced_since,
            ..self
        }
    }
}
