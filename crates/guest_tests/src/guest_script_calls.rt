//! Rows of scripts, whole and faulty, and of printed lines.

use guest_script::{
    DomainLine, Event, LineKind, Said, ScriptFault, Which, cut_line, make, print_said, read_script,
};
use std::alloc::Global;
use std::test::Fail;
use xs_base::Bytes;

#[test]
fn names_the_first_fault_of_the_first_faulty_line(rt: HostRuntime) -> Result<(), Fail> {
    let rows = [
        ("frob 1", 1, LineKind::Verb),
        ("# c\nfrob 1", 2, LineKind::Verb),
        (" do 0", 1, LineKind::Verb),
        ("do\t0", 1, LineKind::Verb),
        ("do 0\nserve", 2, LineKind::Fields),
        ("do  0", 1, LineKind::Fields),
        ("handover 0", 1, LineKind::Fields),
        ("put 0 0", 1, LineKind::Number),
        ("out 0 65537", 1, LineKind::Number),
        ("\n\ndo 32752\nfrob", 3, LineKind::Number),
        ("page 0\r\n", 1, LineKind::Number),
        ("domain 1 at 4294967296", 1, LineKind::Number),
        ("send 32752 0", 1, LineKind::Number),
        ("send 0 0", 1, LineKind::Hex),
        ("send 0 ", 1, LineKind::Hex),
        ("do 0\nresume 0g", 2, LineKind::Hex),
        ("poke 0 req_con x", 1, LineKind::Word),
        ("domain 1 in 0", 1, LineKind::Word),
        ("do 0\ndomain 1 at 0", 2, LineKind::Place),
        ("domain 1 at 0\ndomain 1 at 5\n", 2, LineKind::Place),
        ("domain 1 at 0\nresume 00", 2, LineKind::Place),
        ("resume 00\n#\nresume 00", 3, LineKind::Place),
    ];
    for (text, line, kind) in rows {
        let fault = read_script(rt.alloc(), text.as_bytes()).err();
        assert_eq!(rt; fault, Some(ScriptFault::Line { line, kind }), "{text}");
    }
    Ok(())
}

#[test]
fn refuses_bytes_that_are_no_text(rt: HostRuntime) -> Result<(), Fail> {
    let rows = [
        (b"\0".as_slice(), 1, LineKind::Verb),
        (b"d\0o 0".as_slice(), 1, LineKind::Verb),
        (b"#\0\xff\n\xff".as_slice(), 2, LineKind::Verb),
        (b"do 0\0".as_slice(), 1, LineKind::Number),
        (b"do \x80".as_slice(), 1, LineKind::Number),
        (b"send 0 \xc3\xa9".as_slice(), 1, LineKind::Hex),
        (b"domain 0 a\0 0".as_slice(), 1, LineKind::Word),
        (b"do\xa00".as_slice(), 1, LineKind::Verb),
    ];
    for (text, line, kind) in rows {
        let fault = read_script(rt.alloc(), text).err();
        assert_eq!(rt; fault, Some(ScriptFault::Line { line, kind }));
    }
    Ok(())
}

#[test]
fn counts_the_events_of_short_texts(rt: HostRuntime) -> Result<(), Fail> {
    let rows = [
        (b"".as_slice(), 0),
        (b"\n".as_slice(), 0),
        (b"#\0\xff".as_slice(), 0),
        (b"do 1".as_slice(), 1),
        (b"do 1\n".as_slice(), 1),
        (b"\ndo 1\n#\ndo 2".as_slice(), 2),
    ];
    for (text, count) in rows {
        let script = read_script(rt.alloc(), text)?;
        assert_eq!(rt; script.events.len(), count);
        assert_eq!(rt; script.domains.len(), 0);
        assert!(rt; script.resume.is_none());
    }
    Ok(())
}

#[test]
fn reads_every_kind_of_line(rt: HostRuntime) -> Result<(), Fail> {
    let alloc = rt.alloc();
    let text = b"# all of them\n\nresume aB0C\ndomain 32751 at 4294967295\ndomain 0 at 00\n\
        send 1 Ff00\nput 2 1\nintake 3 65536\ndo 4\nout 5 2\ntake 6 3\n# and\npoke 7 rsp_prod 8\n\
        page 9\nserve 10\n\nhandover";
    let script = read_script(alloc, text)?;
    assert_eq!(rt; script.resume, Some(Bytes::copy(alloc, &[0xab, 0x0c])?));
    let domains = [(32751, 4_294_967_295), (0, 0)];
    for (line, (domid, start)) in script.domains.as_slice().iter().zip(domains) {
        assert_eq!(rt; *line, DomainLine { domid, start });
    }
    assert_eq!(rt; script.domains.len(), 2);
    let bytes = Bytes::copy(alloc, &[0xff, 0])?;
    let which = Which::RspProd;
    let events = [
        Event::Send { domid: 1, bytes },
        Event::Put { domid: 2, max: 1 },
        Event::Intake {
            domid: 3,
            max: 65_536,
        },
        Event::Do { domid: 4 },
        Event::Out { domid: 5, max: 2 },
        Event::Take { domid: 6, max: 3 },
        Event::Poke {
            domid: 7,
            which,
            value: 8,
        },
        Event::Page { domid: 9 },
        Event::Put {
            domid: 10,
            max: 1024,
        },
        Event::Intake {
            domid: 10,
            max: 4112,
        },
        Event::Do { domid: 10 },
        Event::Out {
            domid: 10,
            max: 4112,
        },
        Event::Take {
            domid: 10,
            max: 4112,
        },
        Event::Handover,
    ];
    assert_eq!(rt; script.events.as_slice(), events.as_slice());
    Ok(())
}

#[test]
fn cuts_the_first_line(rt: HostRuntime) {
    let rows = [
        ("a\nb", Some(("a", "b"))),
        ("\n", Some(("", ""))),
        ("a", Some(("a", ""))),
        ("", None),
    ];
    for (text, cut) in rows {
        let cut = cut.map(|(line, rest)| (line.as_bytes(), rest.as_bytes()));
        assert_eq!(rt; cut_line(text.as_bytes()), cut, "{text}");
    }
}

/// The line of an event of domain 7 and its answer.
fn printed(alloc: Global, event: &Event, said: Said) -> Result<Bytes, Fail> {
    let mut line = Bytes::copy(alloc, b"> ")?;
    print_said(&mut line, event, &said, &[0xa0, 1])?;
    Ok(line)
}

#[test]
fn prints_every_verb_and_answer(rt: HostRuntime) -> Result<(), Fail> {
    let alloc = rt.alloc();
    let domid = 7;
    let max = 9;
    let send = Event::Send {
        domid,
        bytes: Bytes::copy(alloc, b"x")?,
    };
    let poke = Event::Poke {
        domid,
        which: Which::ReqCons,
        value: 1,
    };
    let put = Event::Put { domid, max };
    let intake = Event::Intake { domid, max };
    let done = Event::Do { domid };
    let out = Event::Out { domid, max };
    let take = Event::Take { domid, max };
    let page = Event::Page { domid };
    let words = Said::Page {
        req_cons: 1,
        req_prod: 2,
        rsp_cons: 3,
        rsp_prod: 4,
        error: 0,
    };
    let changed = Said::RefusedChanged {
        at: 5,
        put: Some(0x78),
        got: None,
    };
    let rows = [
        (&send, Said::Gone, "> send 7 gone\n"),
        (&send, Said::Queued(1), "> send 7 1\n"),
        (&put, Said::Put(0), "> put 7 0\n"),
        (&intake, Said::InFull, "> intake 7 full\n"),
        (&intake, Said::Took(19), "> intake 7 19\n"),
        (
            &intake,
            Said::DroppedIndex {
                prod: 2000,
                cons: 0,
            },
            "> intake 7 dropped index 2000 0\n",
        ),
        (&done, Said::Part, "> do 7 part\n"),
        (
            &done,
            Said::DroppedLength { len: 4097 },
            "> do 7 dropped length 4097\n",
        ),
        (&done, Said::Held { unsent: 32872 }, "> do 7 held 32872\n"),
        (&done, Said::Crowded { conn: 2 }, "> do 7 crowded 2\n"),
        (&done, Said::Done, "> do 7 done\n"),
        (&out, Said::NoneQueued, "> out 7 none\n"),
        (&out, Said::NoSpace, "> out 7 nospace\n"),
        (&out, Said::Sent(4112), "> out 7 4112\n"),
        (&take, Said::Got(2), "> take 7 a001\n"),
        (&poke, Said::Poked, "> poke 7 ok\n"),
        (&page, words, "> page 7 1 2 3 4 0\n"),
        (&Event::Handover, Said::Handed, "> handover new\n"),
        (
            &Event::Handover,
            Said::RefusedFault,
            "> handover refused fault\n",
        ),
        (
            &Event::Handover,
            changed,
            "> handover refused changed 5 78 end\n",
        ),
    ];
    for (event, said, want) in rows {
        let line = printed(alloc, event, said)?;
        assert_eq!(rt; line.as_slice(), want.as_bytes(), "{want}");
    }
    Ok(())
}

#[test]
fn makes_the_script_of_a_seed(rt: HostRuntime) -> Result<(), Fail> {
    let text = make(rt.alloc(), 10_240, 3)?;
    let want = b"domain 1 at 0\ndomain 2 at 0\ndomain 3 at 0\n\
        send 0 0c0000000000000000000000060000002f62756c6b00\nserve 0\n\
        send 0 0e0000000000000000000000090000002f62756c6b00623000\nserve 0\n\
        send 3 0600000001000000000000000100000000\nserve 3\n\
        send 3 0b0000000200000001000000120000002f62756c6b2f312f36003832393131303135\nserve 3\n\
        send 3 070000000300000001000000020000005400\nserve 3\n";
    assert_eq!(rt; text.as_slice(), want.as_slice());
    Ok(())
}

#[test]
fn makes_a_handover_and_no_fifth_watch(rt: HostRuntime) -> Result<(), Fail> {
    let text = make(rt.alloc(), 1912, 17)?;
    let end = b"send 3 0d00000010000000000000000a0000002f62756c6b2f352f3600\nserve 3\nhandover\n\
        send 1 0200000011000000000000000a0000002f62756c6b2f312f3300\nserve 1\n";
    assert!(rt; text.as_slice().ends_with(end));
    Ok(())
}
