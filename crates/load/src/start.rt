use steps::parts::Label;

// A value that is about to be read: the place of its header, and its label.
#[derive(Clone, Copy)]
pub struct Start<'n> {
    pub place: usize,
    pub label: Label<'n>,
}
