ghost use Rattle.std.specs.Prelude.{◌≡◌, ℕ};
ghost use Rattle.listing.specs.Forms.{Form, Sound, header, table, longest_line};
ghost use Rattle.std.proofs.Common.{rules};

// How a line stands for a pair: head, name, gap, delay, newline.
// The texts are functions: a clause cites a constant by a ghost member of its type, and no impl can give the address in one.
pub trait LineForm {
    // The bytes of the longest line of a good pair.
    const LONGEST: usize;

    ghost LONGEST: { ℕ };

    ghost form: { Form };

    // What stands before the name.
    fn head() -> &'static [u8]
        ensures { result.now ≡ form.head };

    // The byte between name and delay.
    fn gap() -> u8
        ensures { result ≡ form.gap };

    // The text of the delay -1.
    fn never() -> &'static [u8]
        ensures { result.now ≡ form.never };

    // What follows the digits of any other delay.
    fn unit() -> &'static [u8]
        ensures { result.now ≡ form.unit };

    ghost sound: { Sound form };

    ghost longest: { LONGEST ≡ longest_line form };
}

// Lines of the C header that the allocator is compiled with.
#[derive(Clone, Copy)]
pub struct Header;

impl LineForm for Header {
    const LONGEST: usize = 86;

    ghost LONGEST = { 86 };

    ghost form = { header };

    ghost sound = { Prim.search rules };

    ghost longest = { Prim.search rules };

    fn head() -> &'static [u8] {
        b"#define PURGE_"
    }

    fn gap() -> u8 {
        b' '
    }

    fn never() -> &'static [u8] {
        b"-1"
    }

    fn unit() -> &'static [u8] {
        b""
    }
}

// Lines of the table in the allocator's manual.
#[derive(Clone, Copy)]
pub struct Table;

impl LineForm for Table {
    const LONGEST: usize = 75;

    ghost LONGEST = { 75 };

    ghost form = { table };

    ghost sound = { Prim.search rules };

    ghost longest = { Prim.search rules };

    fn head() -> &'static [u8] {
        b""
    }

    fn gap() -> u8 {
        b'\t'
    }

    fn never() -> &'static [u8] {
        b"never"
    }

    fn unit() -> &'static [u8] {
        b" ms"
    }
}
