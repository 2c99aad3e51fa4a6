//! The stores in memory through their trait, with the faults that they were set to have.
use issuer_base::{Store, StoreFail};
use memory_edge::MemoryStore;
use std::test::Fail;
use store_edge::RoomStore;

// At most four bytes from an offset on, and how many there are.
pub(crate) fn read<S: Store + Send>(store: &mut S, at: u64) -> Result<(usize, [u8; 4]), StoreFail> {
    let mut into = [0; 4];
    let count = store.read_at(at, &mut into)?;
    Ok((count, into))
}

/// Whether a crash may leave these bytes of the store.
fn may_leave(store: &MemoryStore, image: &[u8]) -> Result<bool, Fail> {
    let left = store.image(image.len() as u64)?;
    Ok(left.as_deref() == Some(image))
}

/// Whether a crash leaves no so many bytes of the store.
fn leaves_no(store: &MemoryStore, len: u64) -> Result<bool, Fail> {
    Ok(store.image(len)?.is_none())
}

#[test]
fn an_append_without_a_sync_may_be_lost(rt: HostRuntime) -> Result<(), Fail> {
    let bytes = vec![in rt.alloc(); b'a', b'b']?;
    let mut store = MemoryStore::new(rt.alloc(), bytes, 8, vec![in rt.alloc()]?)?;
    assert_eq!(rt; store.append(b"cd"), Ok(()));
    for image in [b"ab".as_slice(), b"abc", b"abcd"] {
        assert!(rt; may_leave(&store, image)?);
    }
    for len in [0, 1, 5] {
        assert!(rt; leaves_no(&store, len)?, "{len}");
    }
    assert_eq!(rt; store.sync(), Ok(()));
    assert!(rt; leaves_no(&store, 3)?);
    assert_eq!(rt; store.cut(1), Ok(()));
    assert!(rt; may_leave(&store, b"a")?);
    assert_eq!(rt; store.len(), 1);
    assert_eq!(rt; store.starved(), 0);
    Ok(())
}

#[test]
fn a_failed_append_leaves_a_front_of_the_piece(rt: HostRuntime) -> Result<(), Fail> {
    let mut store = MemoryStore::new(
        rt.alloc(),
        Vec::new(rt.alloc()),
        4,
        vec![in rt.alloc(); 0, 2, 4, 6]?,
    )?;
    assert_eq!(rt; store.append(b"abcd"), Err(StoreFail));
    assert_eq!(rt; read(&mut store, 0), Ok((2, *b"ab\0\0")));
    assert_eq!(rt; store.sync(), Err(StoreFail));
    assert_eq!(rt; store.image(0)?.is_some(), true);
    assert_eq!(rt; store.append(b"cde"), Err(StoreFail));
    assert_eq!(rt; store.cut(0), Err(StoreFail));
    assert_eq!(rt; read(&mut store, 1), Ok((2, *b"bc\0\0")));
    assert_eq!(rt; read(&mut store, 3), Err(StoreFail));
    assert_eq!(rt; read(&mut store, 3), Ok((0, [0; 4])));
    Ok(())
}

#[test]
fn a_room_store_fails_past_its_room(rt: HostRuntime) -> Result<(), Fail> {
    let mut store = RoomStore::new(rt.alloc(), 4)?;
    assert_eq!(rt; store.append(b"abc"), Ok(()));
    assert_eq!(rt; store.append(b"de"), Err(StoreFail));
    assert_eq!(rt; store.append(b"d"), Ok(()));
    assert_eq!(rt; store.cut(2), Ok(()));
    assert_eq!(rt; store.sync(), Ok(()));
    assert_eq!(rt; read(&mut store, 1), Ok((1, *b"b\0\0\0")));
    assert_eq!(rt; store.len(), 2);
    Ok(())
}
