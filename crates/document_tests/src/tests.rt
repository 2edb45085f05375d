// The boundaries of the law, and memory used again.
use document::store::*;
use refusal::Reason;
use std::process::Abort;
use std::test::Fail;
use steps::parts::*;

const LIST: Holder = Holder::List {
    kind: ListKind::Block,
    head: 0,
};

const OBJECT: Holder = Holder::Object {
    owner: false,
    self_mark: false,
    class: 0,
    on_set: 0,
    arity: 0,
};

fn nothing<'v>() -> Value<'v> {
    Value::Nothing
}

fn letter<'v>(codepoint: u32) -> Value<'v> {
    Value::Char(codepoint)
}

fn put(store: &mut Store<'_>, name: &[u8], value: Value<'_>) -> Result<u32, Reason> {
    let label = Label {
        new_line: false,
        name,
    };
    store.put(label, value)
}

fn put_text(store: &mut Store<'_>, name: &[u8], codepoints: &[u32]) -> Result<u32, Reason> {
    let value = Value::Text {
        kind: TextKind::String,
        head: 0,
        codepoints,
    };
    put(store, name, value)
}

fn open(store: &mut Store<'_>, holder: Holder) -> Result<u32, Reason> {
    let label = Label {
        new_line: false,
        name: b"",
    };
    store.open(label, holder)
}

fn share(store: &mut Store<'_>, share: Share, target: Node) -> Result<u32, Reason> {
    let label = Label {
        new_line: true,
        name: b"",
    };
    store.share(label, share, target)
}

// By number, as people and programs name a reason.
fn refused(answer: Result<u32, Reason>, number: u32) -> bool {
    match answer {
        Ok(_) => false,
        Err(why) => why.number() == number,
    }
}

// The deepest value has the depth 32.
fn go_deep(rt: &impl Abort, store: &mut Store<'_>) -> Result<(), Fail> {
    for _ in 0..32 {
        assert!(rt; open(store, LIST).is_ok());
    }
    assert!(rt; refused(put(store, b"", nothing()), 13));
    assert!(rt; store.close().is_ok());
    assert!(rt; put(store, b"", nothing()).is_ok());
    Ok(())
}

#[test]
fn depth(rt: HostRuntime) -> Result<(), Fail> {
    let mut cells = [FREE; 34];
    let mut codepoints = [0u32; 1];
    let mut names = [0u8; 1];
    go_deep(
        &rt,
        &mut Store::new(Memories {
            cells: &mut cells,
            codepoints: &mut codepoints,
            names: &mut names,
        }),
    )
}

// A name in an object has 1 to 255 bytes, and there is none elsewhere.
fn try_names(rt: &impl Abort, store: &mut Store<'_>, long: &[u8; 256]) {
    assert!(rt; refused(put(store, b"a", nothing()), 18));
    assert!(rt; open(store, OBJECT).is_ok());
    assert!(rt; refused(put(store, long, nothing()), 18));
    assert!(rt; refused(put(store, b"", nothing()), 18));
    assert!(rt; put(store, &long[1..], nothing()).is_ok());
}

#[test]
fn names(rt: HostRuntime) {
    let mut cells = [FREE; 2];
    let mut codepoints = [0u32; 1];
    let mut names = [0u8; 256];
    let mut store = Store::new(Memories {
        cells: &mut cells,
        codepoints: &mut codepoints,
        names: &mut names,
    });
    try_names(&rt, &mut store, &[97; 256]);
}

#[test]
fn ranges(rt: HostRuntime) {
    let mut cells = [FREE; 2];
    let mut codepoints = [0u32; 1];
    let mut names = [0u8; 1];
    let mut store = Store::new(Memories {
        cells: &mut cells,
        codepoints: &mut codepoints,
        names: &mut names,
    });
    assert!(rt; refused(put(&mut store, b"", letter(1_114_112)), 19));
    assert!(rt; put(&mut store, b"", letter(1_114_111)).is_ok());
    let kind = ListKind::Path;
    let above = Holder::List {
        kind,
        head: 2_147_483_648,
    };
    assert!(rt; refused(open(&mut store, above), 19));
    let most = Holder::List {
        kind,
        head: 2_147_483_647,
    };
    assert!(rt; open(&mut store, most).is_ok());
}

// Two cells, three codepoints and two name bytes are used to the last, and again after a take back.
fn fill(rt: &impl Abort, store: &mut Store<'_>, points: &[u32; 4]) {
    assert!(rt; open(store, OBJECT).is_ok());
    assert!(rt; refused(put_text(store, b"ab", points), 14));
    assert!(rt; refused(put_text(store, b"abc", &points[1..]), 14));
    assert!(rt; put_text(store, b"ab", &points[1..]).is_ok());
    assert!(rt; refused(put(store, b"a", nothing()), 14));
    assert!(rt; store.take_back().is_ok());
    assert!(rt; put_text(store, b"ab", &points[1..]).is_ok());
}

#[test]
fn memory(rt: HostRuntime) {
    let mut cells = [FREE; 2];
    let mut codepoints = [0u32; 3];
    let mut names = [0u8; 2];
    let mut store = Store::new(Memories {
        cells: &mut cells,
        codepoints: &mut codepoints,
        names: &mut names,
    });
    fill(&rt, &mut store, &[65; 4]);
}

// Of 16,385 cells 16,384 are used.
fn fill_cells(rt: &impl Abort, store: &mut Store<'_>) -> Result<(), Fail> {
    for _ in 0..16_384 {
        assert!(rt; put(store, b"", nothing()).is_ok());
    }
    assert!(rt; refused(put(store, b"", nothing()), 14));
    Ok(())
}

#[test]
fn limit(rt: HostRuntime) -> Result<(), Fail> {
    let mut cells = [FREE; 16_385];
    let mut codepoints = [0u32; 1];
    let mut names = [0u8; 1];
    let mut store = Store::new(Memories {
        cells: &mut cells,
        codepoints: &mut codepoints,
        names: &mut names,
    });
    fill_cells(&rt, &mut store)
}

// A share's target is a value of its family that is no share, and may still be open.
fn try_shares(rt: &impl Abort, store: &mut Store<'_>) {
    let list = Share::List {
        kind: ListKind::Paren,
        head: 1,
    };
    let object = Share::Object { owner: true };
    assert!(rt; refused(share(store, list, Node::At(0)), 19));
    assert!(rt; open(store, LIST).is_ok());
    assert!(rt; refused(share(store, object, Node::At(0)), 19));
    assert!(rt; refused(share(store, list, Node::Root), 19));
    assert!(rt; share(store, list, Node::At(0)).is_ok());
    assert!(rt; refused(share(store, list, Node::At(1)), 19));
    assert!(rt; refused(share(store, list, Node::At(2)), 19));
}

// What was begun and closed is taken back, step by step.
fn take_all_back(rt: &impl Abort, store: &mut Store<'_>) -> Result<(), Fail> {
    assert!(rt; store.close().is_ok());
    assert!(rt; put_text(store, b"", &[65, 66]).is_ok());
    for _ in 0..4 {
        assert!(rt; store.take_back().is_ok());
    }
    assert!(rt; store.take_back().is_err());
    assert!(rt; store.close().is_err());
    Ok(())
}

#[test]
fn shares_and_back(rt: HostRuntime) -> Result<(), Fail> {
    let mut cells = [FREE; 3];
    let mut codepoints = [0u32; 2];
    let mut names = [0u8; 1];
    let mut store = Store::new(Memories {
        cells: &mut cells,
        codepoints: &mut codepoints,
        names: &mut names,
    });
    try_shares(&rt, &mut store);
    take_all_back(&rt, &mut store)
}
