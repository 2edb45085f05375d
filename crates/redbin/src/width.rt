// How many bytes each codepoint of a text has, or each entry of a run.
ghost use Rattle.std.specs.Prelude.{◌≡◌};
ghost use Rattle.redbin.specs.Layout.{width};

#[derive(Clone, Copy, PartialEq, Eq, Debug)]
pub enum Width {
    One = 1,
    Two = 2,
    Four = 4,
}

impl Width {
    pub fn bytes(self) -> u32
        ensures { result ≡ width self }
    {
        self as u32
    }
}
