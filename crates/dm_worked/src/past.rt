use crate::acts::{Act, book_after};
use dm_core::Book;
use dm_event::{Choice, Pair, Vector};
use dm_store::Past;
use std::alloc::Global;
use std::test::Fail;

const ONE_COMMIT: &[Act] = &[Act::Send(1, 1, Choice::Hand), Act::Begin(1), Act::Commit];

/// What is inside the opening vector, and inside that of everything.
fn pasts(alloc: Global, book: &Book) -> Result<(Vec<Past>, Vec<Past>), Fail> {
    let none = book.past(alloc, &Vector::zeros(2))?;
    Ok((none, book.past(alloc, &book.full())?))
}

fn pasts_of_one_commit(alloc: Global) -> Result<(Vec<Past>, Vec<Past>), Fail> {
    let book = book_after(alloc, ONE_COMMIT)?;
    pasts(alloc, &book)
}

#[test]
fn the_past_up_to_a_vector_has_what_is_inside_it(rt: HostRuntime) -> Result<(), Fail> {
    let (none, one) = pasts_of_one_commit(rt.alloc())?;
    assert!(rt; none.is_empty());
    assert_eq!(rt; one.len(), 1);
    assert_eq!(rt;
        one[0].writes.as_slice(),
        [Pair { key: 3, value: 5 }].as_slice()
    );
    Ok(())
}
