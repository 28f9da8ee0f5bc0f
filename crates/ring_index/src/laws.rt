//! Laws on a ring page that nobody pokes (xenstore-ring.txt).
ghost use Rattle.ring_index.specs.Pipes.{PutAppends, TakeRemoves, TakesJoin, MovesAreOfPipes, IsTwoPipes};

/// A put of bytes for which a ring has room joins them to what it holds, and its indices stay good.
pub fn put_appends()
    ensures { PutAppends }
{}

/// A take of bytes that a ring holds removes them from the front of it, and its indices stay good.
pub fn take_removes()
    ensures { TakeRemoves }
{}

/// Two takes, one after the other, are one take of as many bytes.
pub fn takes_join()
    ensures { TakesJoin }
{}

/// What a side does with a page does the same to two pipes of at most 1024 bytes, one each way.
pub fn moves_are_of_pipes()
    ensures { MovesAreOfPipes }
{}

/// A fresh page is two empty pipes, and it is two pipes after any puts and takes of both sides.
pub fn page_is_two_pipes()
    ensures { IsTwoPipes }
{}
