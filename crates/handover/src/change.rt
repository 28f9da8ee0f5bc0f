//! The first place at which a vault gave back another string.

ghost use Rattle.std.specs.Prelude.{◌≡◌};
ghost use Rattle.handover.specs.Changes.{IsChange};

/// The first place at which two strings differ, and what stands there: none where a string has ended.
#[derive(Clone, Copy, Debug, PartialEq, Eq)]
pub struct Change {
    pub at: usize,
    pub put: Option<u8>,
    pub got: Option<u8>,
}

/// The first place at which what was got is not what was put, if any. O(number of bytes before it).
pub fn first_change(put: &[u8], got: &[u8]) -> Option<Change>
    ensures { IsChange put.now got.now result }
{
    let mut at = 0;
    while at < put.len() && at < got.len() && put[at] == got[at] {
        at += 1;
    }
    if at == put.len() && at == got.len() {
        return None;
    }
    Some(Change {
        at,
        put: put.get(at).copied(),
        got: got.get(at).copied(),
    })
}
