ghost use Rattle.std.specs.Prelude.{◌≡◌, length};

mod change;

use steps::limits::DEEPEST;

// The values of a list or an object that are still to be read: so many that have no names, or those that these symbols name.
#[derive(Clone, Copy)]
pub enum LevelRecord<'f> {
    Unnamed(u32),
    Named(&'f [[u8; 4]]),
}

// The records of the levels that are open. A level has the number of those that may still be opened inside it.
#[derive(Drop)]
pub struct Levels<'f> {
    records: [LevelRecord<'f>; DEEPEST as usize],
    ghost many: { length records ≡ 32 },
}
