//! Bytes in and out of a small store.

ghost use Rattle.std.specs.Prelude.{◌≡◌, length};

use std::alloc::Global;
use trace_store::Store;

/// Whether an empty ring of 5 places wraps, fills to its capacity, and empties.
fn is_in_order(store: &mut Store, buf: &mut [u8; 6]) -> bool
    requires empty { length store.old.items ≡ 0 }
    requires capacity { store.old.capacity ≡ 5 }
{
    store.put(&[1, 2, 3]);
    store.drain_into(buf, 2);
    let begun = *buf == [1, 2, 9, 9, 9, 9];
    store.put(&[4, 5, 6, 7]);
    let full = store.waiting() == 5 && store.room() == 0;
    store.drain_into(buf, 5);
    let emptied = store.waiting() == 0 && store.room() == 5;
    begun && full && emptied && *buf == [3, 4, 5, 6, 7, 9]
}

fn is_store_right(alloc: Global) -> bool {
    match Store::new(alloc, 5) {
        Ok(mut store) => is_in_order(&mut store, &mut [9; 6]),
        Err(_) => false,
    }
}

#[test]
fn bytes_come_out_in_the_order_in_which_they_went_in(rt: HostRuntime) {
    assert!(rt; is_store_right(rt.alloc()));
}
