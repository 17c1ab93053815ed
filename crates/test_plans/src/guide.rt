//! `ext_model::PlainStore` by example: JUnit's store for an engine of one thread. It holds numbers;
//! the engine keeps the values, one for each number, in the order in which they were drawn.
//!
//! A claim is also refused: as `Taken(number)` where a value stands, and as `FaultStands(number)`
//! where a fault is kept, which is so where the engine calls `fail` in place of `abandon`.
use crate::same::same;
use ext_model::{Look, PlainStore};
use std::test::Fail;

/// An engine of one thread keeps, puts, looks up, removes, computes and seals, with the answers
/// that the guide tells.
/// Tests `PlainStore::get`.
#[test]
fn guide_to_the_plain_store(rt: HostRuntime) -> Result<(), Fail> {
    // Contexts are numbered from the root: 0 the engine, 1 a class, 2 a method. Key 0 is, say,
    // "server".
    let mut store = PlainStore::new(rt.alloc(), 65_535);

    // A value is kept first: that draws its number. Then the number is put into a context.
    let number = store.keep()?;
    let stood = store.put(0, 0, number)?;
    same(&rt, (number, stood), (1, None), "nothing stood there");

    // A look-up asks the context and then its ancestors, nearest first.
    let found = Look::Found { at: 0, number: 1 };
    same(&rt, store.get(&[2, 1, 0], 0), found, "the value");

    // A remove acts on the given context alone: the value of context 0 stays.
    same(&rt, store.remove(2, 0)?, None, "nothing stands there");

    // getOrComputeIfAbsent: claim the place, run the factory, keep its value, fill. Meanwhile
    // look-ups that come there are Busy.
    store.claim(2, 1, 3)?;
    same(&rt, store.get(&[2, 1, 0], 1), Look::Busy(2), "a claim");
    let number = store.keep()?;
    assert!(rt; store.is_claimed_by(2, 1, 3));
    store.fill(2, 1, 3, number)?;

    // When a context has ended, and all below it have, each of its keys is sealed. A seal answers
    // the number that it keeps: close these values, the greatest number first. Nothing is stored
    // there afterwards, and look-ups that come there are Closed.
    let sealed = (store.seal(2, 0)?, store.seal(2, 1)?);
    same(&rt, sealed, (None, Some(2)), "what the seals keep");
    same(&rt, store.get(&[2, 1, 0], 1), Look::Closed(2), "a seal");
    Ok(())
}
