ghost use Rattle.std.specs.Prelude.{◌≤◌, length};

mod ends;
mod fields;
mod headings;
mod inner;
mod runs;
mod start;
mod symbols;

// A place in a file that is read from its first byte to its last. The whole file is kept beside the place, since refusals name
// places.
#[derive(Drop)]
pub struct Reader<'f> {
    file: &'f [u8],
    place: usize,
    ghost within: { place ≤ length file.now },
}
