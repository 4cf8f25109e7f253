//! The parts of a pipeline, by their numbers.

ghost use Rattle.std.specs.Prelude.{◌≡◌, ◌≤◌, ◌<◌, ◌^◌};
ghost use Rattle.pipe_net.specs.Parts as parts;
ghost use Rattle.pipe_net.specs.Parts.{part_place, IsSmall};

/// A part of a pipeline, with a block of its own, by its place among the parts. [`Sizes`] says which is which.
#[derive(Clone, Copy, PartialEq, Eq, Debug)]
pub struct Part {
    pub number: u32,
}

impl block_core::name::Part for Part {
    ghost place = { part_place };

    fn place(self) -> usize {
        self.number as usize
    }
}

/// How many parts of each sort a pipeline has: the place where packets commit, the last place, how many maps the program has, and how many of its sites
/// read a word under a pointer.
#[derive(Clone, Copy, PartialEq, Eq, Debug)]
pub struct Sizes {
    pub commit: u32,
    pub last: u32,
    pub maps: u32,
    pub loads: u32,
}

/// Gives the beats of answers.
pub fn scatter() -> Part
    ensures { result ≡ parts.scatter }
{
    Part { number: 0 }
}

impl Sizes {
    // The number of the first part after those of words.
    fn behind_words(&self) -> u32
        requires { IsSmall self.now }
        ensures value { result ≡ parts.behind_words self.now }
        ensures small { result < 2 ^ 24 }
    {
        4 + self.commit + self.maps + self.loads
    }

    /// Says whether the packet at a place is to be sent back, up to the commit place.
    pub fn reload(&self, k: u32) -> Part
        requires small { IsSmall self.now }
        requires place { k ≤ self.now.commit }
        ensures { result ≡ parts.reload k }
    {
        Part { number: 1 + k }
    }

    /// Says which places send back.
    pub fn returns(&self) -> Part
        requires { IsSmall self.now }
        ensures { result ≡ parts.returns self.now }
    {
        Part {
            number: 2 + self.commit,
        }
    }

    /// Shows of a frame what its packet takes in.
    pub fn sources(&self) -> Part
        requires { IsSmall self.now }
        ensures { result ≡ parts.sources self.now }
    {
        Part {
            number: 3 + self.commit,
        }
    }

    /// Shows the slots of a map, if it is a hash.
    pub fn slots(&self, m: u32) -> Part
        requires small { IsSmall self.now }
        requires map { m < self.now.maps }
        ensures { result ≡ parts.slots self.now m }
    {
        Part {
            number: 4 + self.commit + m,
        }
    }

    /// Shows the word that a site reads under its pointer, by its number among those.
    pub fn word(&self, i: u32) -> Part
        requires small { IsSmall self.now }
        requires load { i < self.now.loads }
        ensures { result ≡ parts.word self.now i }
    {
        Part {
            number: 4 + self.commit + self.maps + i,
        }
    }

    /// Says which slots the operations on a map write.
    pub fn targets(&self, m: u32) -> Part
        requires small { IsSmall self.now }
        requires map { m < self.now.maps }
        ensures { result ≡ parts.targets self.now m }
    {
        Part {
            number: self.behind_words() + m,
        }
    }

    /// Says what the host may do.
    pub fn host(&self) -> Part
        requires { IsSmall self.now }
        ensures { result ≡ parts.host self.now }
    {
        Part {
            number: self.behind_words() + self.maps,
        }
    }

    /// Says which operation commits.
    pub fn action(&self) -> Part
        requires { IsSmall self.now }
        ensures { result ≡ parts.action self.now }
    {
        Part {
            number: self.behind_words() + self.maps + 1,
        }
    }

    /// Says on which map it is.
    pub fn commits(&self) -> Part
        requires { IsSmall self.now }
        ensures { result ≡ parts.commits self.now }
    {
        Part {
            number: self.behind_words() + self.maps + 2,
        }
    }

    // One of the parts of a map.
    fn of_map(&self, m: u32, at: u32) -> Part
        requires small { IsSmall self.now }
        requires map { m < self.now.maps }
        requires at { at < 6 }
        ensures { result ≡ parts.of_map self.now m at }
    {
        Part {
            number: self.behind_words() + self.maps + 3 + 6 * m + at,
        }
    }

    /// Gives the slot of a map that the operation writes that commits.
    pub fn finder(&self, m: u32) -> Part
        requires small { IsSmall self.now }
        requires map { m < self.now.maps }
        ensures { result ≡ parts.finder self.now m }
    {
        self.of_map(m, 0)
    }

    /// Gives the words that stand there.
    pub fn fetcher(&self, m: u32) -> Part
        requires small { IsSmall self.now }
        requires map { m < self.now.maps }
        ensures { result ≡ parts.fetcher self.now m }
    {
        self.of_map(m, 1)
    }

    /// Gives what the operation asks.
    pub fn asker(&self, m: u32) -> Part
        requires small { IsSmall self.now }
        requires map { m < self.now.maps }
        ensures { result ≡ parts.asker self.now m }
    {
        self.of_map(m, 2)
    }

    /// Has the memories of a map.
    pub fn own(&self, m: u32) -> Part
        requires small { IsSmall self.now }
        requires map { m < self.now.maps }
        ensures { result ≡ parts.own self.now m }
    {
        self.of_map(m, 3)
    }

    /// Gives the slot of a map that is written in a clock, by an operation or by the host, and the key there.
    pub fn written(&self, m: u32) -> Part
        requires small { IsSmall self.now }
        requires map { m < self.now.maps }
        ensures { result ≡ parts.written self.now m }
    {
        self.of_map(m, 4)
    }

    /// Gives what that changes.
    pub fn change(&self, m: u32) -> Part
        requires small { IsSmall self.now }
        requires map { m < self.now.maps }
        ensures { result ≡ parts.change self.now m }
    {
        self.of_map(m, 5)
    }

    // The number of the first part after those of the maps.
    fn behind_maps(&self) -> u32
        requires { IsSmall self.now }
        ensures value { result ≡ parts.behind_maps self.now }
        ensures small { result < 2 ^ 25 }
    {
        self.behind_words() + 3 + 7 * self.maps
    }

    /// Counts frames, and moves packets from place to place.
    pub fn control(&self) -> Part
        requires { IsSmall self.now }
        ensures { result ≡ parts.control self.now }
    {
        Part {
            number: self.behind_maps(),
        }
    }

    /// Holds the marks of the packet at a place, up to the commit place.
    pub fn marks(&self, k: u32) -> Part
        requires small { IsSmall self.now }
        requires place { k ≤ self.now.commit }
        ensures { result ≡ parts.marks self.now k }
    {
        Part {
            number: self.behind_maps() + 1 + k,
        }
    }

    /// Gives what the host reads.
    pub fn value(&self) -> Part
        requires { IsSmall self.now }
        ensures { result ≡ parts.value self.now }
    {
        Part {
            number: self.behind_maps() + self.commit + 2,
        }
    }

    /// Takes the beats of frames.
    pub fn gather(&self) -> Part
        requires { IsSmall self.now }
        ensures { result ≡ parts.gather self.now }
    {
        Part {
            number: self.behind_maps() + self.commit + 3,
        }
    }

    /// Keeps the answers of packets that leave.
    pub fn exit(&self) -> Part
        requires { IsSmall self.now }
        ensures { result ≡ parts.exit self.now }
    {
        Part {
            number: self.behind_maps() + self.commit + 4,
        }
    }

    /// Holds the cells of a packet after a row of the program.
    pub fn place(&self, k: u32) -> Part
        requires small { IsSmall self.now }
        requires place { k ≤ self.now.last }
        ensures { result ≡ parts.place self.now k }
    {
        Part {
            number: self.behind_maps() + self.commit + 5 + k,
        }
    }
}
