// A book that keeps what was reserved.
use history_book::{Book, Item};
use std::test::Fail;

#[test]
fn a_book_keeps_what_was_reserved(rt: HostRuntime) -> Result<(), Fail> {
    let mut book = Book::new(rt.alloc());
    assert!(rt; book.items().is_empty());
    assert!(rt; book.reserve(1).is_ok());
    assert!(rt; book.append(Item::Tick { to: 1 }).is_ok());
    assert!(rt; book.make_room(1).is_ok());
    book.append_in_room(Item::Tick { to: 2 });
    assert_eq!(rt; book.spare(), 1);
    book.append_reserved(Item::Tick { to: 3 });
    for (at, item) in book.items().iter().enumerate() {
        assert!(rt; *item == Item::Tick { to: at as u64 + 1 }, "item {at}");
    }
    assert_eq!(rt; book.items().len(), 3);
    Ok(())
}
