use document::store::Store;

mod edits;
mod loads;
mod prints;
mod saves;

// A document that is edited by steps, in memory that the caller lends.
#[derive(Drop)]
pub struct Draft<'a> {
    store: Store<'a>,
}
