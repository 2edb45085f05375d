// How many levels of values may still be opened, and the guard of an open one.
ghost use Rattle.std.specs.Prelude.{◌≡◌, ◌+◌, ◌-◌, ◌^◌, ◌<◌};

#[derive(Drop)]
pub struct Depth {
    pub left: u32,
}

// An open level. While it stands, one level fewer may be opened.
pub struct Level<'d> {
    pub depth: &'d mut Depth,
}

impl<'d> Level<'d> {
    pub fn open(depth: &'d mut Depth) -> Level<'d>
        requires { 0 < depth.old.left }
        ensures lent { result.depth.ghost_name ≡ depth.entry.ghost_name }
        ensures lower { result.depth.now.left ≡ depth.old.left - 1 }
    {
        depth.left -= 1;
        Level { depth }
    }
}

impl Drop for Level<'_> {
    fn drop(self)
        requires { self.depth.now.left + 1 < 2 ^ 32 }
        ensures { self.exit.0.now.left ≡ self.entry.depth.now.left + 1 }
    {
        self.depth.left += 1;
        let Level { depth: _ } = self;
    }
}
