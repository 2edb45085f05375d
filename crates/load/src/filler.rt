use crate::reader::Reader;
use document::store::Store;

// What fills a store from a file.
#[derive(Drop)]
pub struct Filler<'l, 'f, 's> {
    pub reader: Reader<'f>,
    pub store: &'l mut Store<'s>,
}
