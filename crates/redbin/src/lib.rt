// The file format of documents: what a file means, and the one file that stands for given steps.
#![tactic(auto)]

ghost use Rattle.redbin.specs.Promises.{HeadersReadBack, CanonicalReadsBack, CanonicalTellsApart, LoadIsLawful, MemoryDecidesRoomAlone, LoadAcceptsWhatFits, LoadGivesFileSteps, PathsLead};
ghost use Rattle.redbin.specs.Examples.{Examples};

pub mod form;
pub mod header;
pub mod layout;
pub mod width;

// The functions below hold no code: their contracts are what holds of the definitions.

// The header that is written for a form announces that form.
pub fn headers_read_back()
    ensures { HeadersReadBack }
{}

// The canonical form is read back as the steps that it was written for.
pub fn canonical_reads_back()
    ensures { CanonicalReadsBack }
{}

// Different steps have different canonical forms.
pub fn canonical_tells_apart()
    ensures { CanonicalTellsApart }
{}

// What is read keeps the law of steps.
pub fn load_is_lawful()
    ensures { LoadIsLawful }
{}

// Memory decides nothing about a file but whether its values have room.
pub fn memory_decides_room_alone()
    ensures { MemoryDecidesRoomAlone }
{}

// A file that can be read is read into every memory that its steps fit.
pub fn load_accepts_what_fits()
    ensures { LoadAcceptsWhatFits }
{}

// What a file means does not depend on the memory into which it is read.
pub fn load_gives_file_steps()
    ensures { LoadGivesFileSteps }
{}

// The canonical path of a value leads to it.
pub fn paths_lead()
    ensures { PathsLead }
{}

// Files in numbers, and what the definitions make of them.
pub fn worked_examples()
    ensures { Examples }
{}
