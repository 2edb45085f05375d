ghost use Rattle.std.specs.Prelude.{◌≡◌, ◌*◌, length};
ghost use Rattle.redbin.specs.Layout.{width};

use redbin::width::Width;
use steps::parts::TextKind;

// A text as a file has it: `count` codepoints, each of a unit's width.
#[derive(Clone, Copy)]
pub struct Encoded<'f> {
    pub kind: TextKind,
    pub head: u32,
    pub unit: Width,
    pub count: u32,
    pub bytes: &'f [u8],
    pub ghost long: { length bytes.now ≡ count * width unit },
}
