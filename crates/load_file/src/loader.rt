ghost use Rattle.load.specs.Tables.{table_of};
ghost use Rattle.load_file.specs.Lawful.{AllLawful, all_lawful_prop};

use crate::levels::Levels;
use crate::scope::Scope;

// What reads the records of a file: their scope, and the levels that are open. Every symbol of the file has a lawful name.
// The filler is given to each call: where a struct lies in another, nothing tells what a `&mut` in it leaves.
#[derive(Drop)]
pub struct Loader<'f> {
    pub scope: Scope<'f>,
    pub levels: Levels<'f>,
    pub ghost lawful: { AllLawful (table_of scope.symbols) } by { all_lawful_prop (table_of scope.symbols) },
}
