// Examples of what the two listings take, refuse and write.
#![tactic(auto)]

ghost use Rattle.std.specs.Prelude.{◌≡◌};

#[cfg(test)]
mod tests {
    use listing::Listing;
    use listing::lines::{HeaderListing, TableListing};
    use listing::pairs::Entry;
    use refusal::Reason;

    const LONG: &[u8] = b"a23456789_123456789_123456789_123456789_123456789_123456789_123";

    const TOO_LONG: &[u8] = b"a23456789_123456789_123456789_123456789_123456789_123456789_1234";

    fn entry(name: &[u8], delay: i32) -> Entry<'_>
        ensures name { result.name.now ≡ name.now }
        ensures delay { result.delay ≡ delay }
    {
        Entry { name, delay }
    }

    #[test]
    fn header_lines(rt: HostRuntime) {
        let mut memory = [7u8; 50];
        let mut listing = HeaderListing::new(&mut memory);
        assert_eq!(rt; listing.add(&entry(b"dirty", 10000)), Ok(()));
        assert_eq!(rt; listing.add(&entry(b"muzzy", -1)), Ok(()));
        assert_eq!(rt; listing.spare(), 1);
        assert!(rt;
            listing.text() == b"#define PURGE_dirty 10000\n#define PURGE_muzzy -1\n".as_slice()
        );
        assert!(rt; memory[49] == 7);
    }

    #[test]
    fn table_lines(rt: HostRuntime) {
        let mut memory = [7u8; 28];
        let mut listing = TableListing::new(&mut memory);
        assert_eq!(rt; listing.add(&entry(b"dirty", 10000)), Ok(()));
        assert_eq!(rt; listing.add(&entry(b"muzzy", -1)), Ok(()));
        assert_eq!(rt; listing.spare(), 1);
        assert!(rt; listing.text() == b"dirty\t10000 ms\nmuzzy\tnever\n".as_slice());
        assert!(rt; memory[27] == 7);
    }

    #[test]
    fn bad_pairs(rt: HostRuntime) {
        let mut memory = [0u8; 200];
        let mut listing = TableListing::new(&mut memory);
        assert_eq!(rt;
            listing.add(&entry(b"a", 3_600_001)),
            Err(Reason::NotTuning)
        );
        assert_eq!(rt; listing.add(&entry(b"a", -2)), Err(Reason::NotTuning));
        assert_eq!(rt; listing.add(&entry(b"", 0)), Err(Reason::NotTuning));
        assert_eq!(rt; listing.add(&entry(b"9a", 0)), Err(Reason::NotTuning));
        assert_eq!(rt; listing.add(&entry(b"a-b", 0)), Err(Reason::NotTuning));
        assert_eq!(rt; listing.add(&entry(TOO_LONG, 0)), Err(Reason::NotTuning));
        assert!(rt; !listing.fits(&entry(b"a", -2)));
        assert_eq!(rt; listing.add(&entry(b"_Z9", 3_600_000)), Ok(()));
        assert!(rt; listing.text() == b"_Z9\t3600000 ms\n".as_slice());
    }

    #[test]
    fn longest_header_line(rt: HostRuntime) {
        let mut memory = [0u8; 86];
        let mut listing = HeaderListing::new(&mut memory);
        assert_eq!(rt; <HeaderListing<'_> as Listing>::LONGEST, 86);
        assert_eq!(rt; listing.add(&entry(LONG, 3_600_000)), Ok(()));
        assert_eq!(rt; listing.spare(), 0);
        assert_eq!(rt; listing.text().len(), 86);
    }

    #[test]
    fn longest_table_line(rt: HostRuntime) {
        let mut memory = [0u8; 75];
        let mut listing = TableListing::new(&mut memory);
        assert_eq!(rt; <TableListing<'_> as Listing>::LONGEST, 75);
        assert_eq!(rt; listing.add(&entry(LONG, 3_600_000)), Ok(()));
        assert_eq!(rt; listing.spare(), 0);
        assert_eq!(rt; listing.text().len(), 75);
    }

    #[test]
    fn one_byte_short(rt: HostRuntime) {
        let mut memory = [7u8; 10];
        let mut listing = TableListing::new(&mut memory);
        assert_eq!(rt; listing.add(&entry(b"abcd", 10)), Err(Reason::DoesNotFit));
        assert_eq!(rt; listing.add(&entry(b"9", 10)), Err(Reason::NotTuning));
        assert_eq!(rt; listing.spare(), 10);
        assert!(rt; listing.fits(&entry(b"abc", 10)));
        assert!(rt; memory == [7u8; 10]);
    }

    #[test]
    fn numbers(rt: HostRuntime) {
        assert_eq!(rt; Reason::DoesNotFit.number(), 20);
        assert_eq!(rt; Reason::NotTuning.number(), 21);
    }
}
