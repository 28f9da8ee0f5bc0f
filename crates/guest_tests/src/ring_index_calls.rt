//! Worked values of the ring page, found by hand.

use ring_index::{BadIndex, Index, PlainPage, Words, used};

fn words(req_cons: u32, req_prod: u32, rsp_cons: u32, rsp_prod: u32, error: u32) -> Words {
    Words {
        req_cons,
        req_prod,
        rsp_cons,
        rsp_prod,
        error,
    }
}

#[test]
fn counts_used_bytes(rt: HostRuntime) {
    for (prod, cons, want) in [
        (0, 0, Ok(0)),
        (94, 4294967290, Ok(100)),
        (1024, 0, Ok(1024)),
        (
            1025,
            0,
            Err(BadIndex {
                prod: 1025,
                cons: 0,
            }),
        ),
        (0, 1, Err(BadIndex { prod: 0, cons: 1 })),
    ] {
        assert_eq!(rt; used(prod, cons), want);
    }
}

#[test]
fn carries_bytes_round_the_end_of_indices(rt: HostRuntime) {
    let mut page = PlainPage::fresh(4294967290);
    let mut request = [0; 100];
    assert_eq!(rt; page.guest_put(&[0x78; 100]), 100);
    assert_eq!(rt;
        page.words(),
        words(4294967290, 94, 4294967290, 4294967290, 0)
    );
    assert_eq!(rt; page.request_used(), Ok(100));
    assert_eq!(rt; page.server_take(&mut request), Ok(100));
    assert_eq!(rt; request, [0x78; 100]);
    assert_eq!(rt; page.words(), words(94, 94, 4294967290, 4294967290, 0));
}

#[test]
fn fills_a_ring_and_no_more(rt: HostRuntime) {
    let mut page = PlainPage::fresh(1000);
    let mut reply = [0; 2];
    assert_eq!(rt; page.server_put(&[1; 1023]), Ok(1023));
    assert_eq!(rt; page.server_put(&[2; 5]), Ok(1));
    assert_eq!(rt; page.reply_free(), Ok(0));
    assert_eq!(rt; page.guest_take(&mut reply), 2);
    assert_eq!(rt; reply, [1; 2]);
    assert_eq!(rt; page.reply_free(), Ok(2));
}

#[test]
fn tells_poked_indices(rt: HostRuntime) {
    let mut page = PlainPage::fresh(0);
    let mut into = [7; 4];
    page.poke(Index::ReqProd, 3);
    assert_eq!(rt; page.server_take(&mut into), Ok(3));
    assert_eq!(rt; into, [0, 0, 0, 7]);
    page.poke(Index::ReqProd, 2000);
    let bad = BadIndex {
        prod: 2000,
        cons: 3,
    };
    assert_eq!(rt; page.server_take(&mut into), Err(bad));
    assert_eq!(rt; page.guest_put(&[1]), 0);
    page.set_error(2);
    assert_eq!(rt; page.words(), words(3, 2000, 0, 0, 2));
}
