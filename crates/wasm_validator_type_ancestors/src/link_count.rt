//! A count of the supertype links that look-ups read, by which their cost is stated.

ghost use Rattle.std.specs.Prelude.{◌≡◌, ◌+◌, ◌<◌, ◌^◌};

/// How many supertype links were read.
#[derive(Clone, Copy, Debug)]
pub struct LinkCount {
    links: u64,
}

impl LinkCount {
    /// No link so far.
    pub fn new() -> LinkCount
        ensures { result.links ≡ 0 }
    {
        LinkCount { links: 0 }
    }

    /// The number of links.
    pub fn read(&self) -> u64
        ensures { result ≡ self.now.links }
    {
        self.links
    }

    /// One link more.
    pub(crate) fn add_one(&mut self)
        requires { self.old.links + 1 < 2 ^ 64 }
        ensures { self.new.links ≡ self.old.links + 1 }
    {
        self.links += 1;
    }
}
