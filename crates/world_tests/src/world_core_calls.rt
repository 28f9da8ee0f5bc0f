//! Worked runs of the world, by hand.

ghost use Rattle.guest_script.specs.Views.{event_view};
ghost use Rattle.world_core.specs.Stands.{Moves};

use daemon::Daemon;
use guest_script::Event;
use msg_reassembly::{Inbox, Ins};
use std::alloc::Global;
use std::process::Abort;
use std::test::Fail;
use world_core::World;
use world_model::{Said, Which};
use xs_base::{Bytes, NoMemory, SureVault};

/// A READ of the path `/a`, which is absent.
const READ: [u8; 19] = [
    2, 0, 0, 0, 1, 0, 0, 0, 0, 0, 0, 0, 3, 0, 0, 0, b'/', b'a', 0,
];

/// The world of a new store.
fn new_world(alloc: Global) -> Result<World, NoMemory> {
    let mut ins = Ins::new(alloc);
    ins.add(1, Inbox::new(alloc)?)?;
    World::start(alloc, Daemon::new(alloc)?, ins)
}

/// What the world says to an event. A test looks at that alone, and proves sooner without the clauses behind it.
fn say(world: &mut World, vault: &mut SureVault, event: Event) -> Said
    requires { Moves (event_view event) }
{
    world.step(&event, vault)
}

/// Domain 0 queues a READ, which leaves for the store in two pieces.
fn ask_in_pieces(
    rt: &impl Abort,
    world: &mut World,
    vault: &mut SureVault,
    bytes: Bytes,
) -> Result<(), Fail> {
    let domid = 0;
    assert_eq!(rt;
        say(world, vault, Event::Send { domid, bytes }),
        Said::Queued(19)
    );
    assert_eq!(rt;
        say(world, vault, Event::Put { domid, max: 17 }),
        Said::Put(17)
    );
    assert_eq!(rt;
        say(world, vault, Event::Intake { domid, max: 4112 }),
        Said::Took(17)
    );
    assert_eq!(rt; say(world, vault, Event::Do { domid }), Said::Part);
    assert_eq!(rt;
        say(world, vault, Event::Put { domid, max: 17 }),
        Said::Put(2)
    );
    assert_eq!(rt;
        say(world, vault, Event::Intake { domid, max: 4112 }),
        Said::Took(2)
    );
    assert_eq!(rt;
        say(world, vault, Event::Intake { domid, max: 4112 }),
        Said::InFull
    );
    assert_eq!(rt; say(world, vault, Event::Do { domid }), Said::Done);
    Ok(())
}

#[test]
fn plays_each_event(rt: HostRuntime) -> Result<(), Fail> {
    let mut world = new_world(rt.alloc())?;
    let mut vault = SureVault::new(rt.alloc());
    let bytes = Bytes::copy(rt.alloc(), &READ)?;
    ask_in_pieces(&rt, &mut world, &mut vault, bytes)?;
    let domid = 0;
    let words = Said::Page {
        req_cons: 19,
        req_prod: 19,
        rsp_cons: 0,
        rsp_prod: 20,
        error: 0,
    };
    assert_eq!(rt;
        say(&mut world, &mut vault, Event::Out { domid, max: 20 }),
        Said::Sent(20)
    );
    assert_eq!(rt; say(&mut world, &mut vault, Event::Page { domid }), words);
    assert_eq!(rt;
        say(&mut world, &mut vault, Event::Take { domid, max: 4112 }),
        Said::Got(20)
    );
    assert_eq!(rt;
        say(&mut world, &mut vault, Event::Out { domid, max: 20 }),
        Said::Sent(3)
    );
    assert_eq!(rt;
        say(&mut world, &mut vault, Event::Out { domid, max: 20 }),
        Said::NoneQueued
    );
    assert_eq!(rt;
        say(&mut world, &mut vault, Event::Take { domid, max: 2 }),
        Said::Got(2)
    );
    assert_eq!(rt; world.taken(), b"NT".as_slice());
    Ok(())
}

#[test]
fn drops_who_moves_an_index_too_far(rt: HostRuntime) -> Result<(), Fail> {
    let mut world = new_world(rt.alloc())?;
    let mut vault = SureVault::new(rt.alloc());
    let domid = 0;
    let (which, value) = (Which::ReqProd, 2000);
    let poke = Event::Poke {
        domid,
        which,
        value,
    };
    let dropped = Said::DroppedIndex {
        prod: 2000,
        cons: 0,
    };
    assert_eq!(rt; say(&mut world, &mut vault, poke), Said::Poked);
    assert_eq!(rt;
        say(&mut world, &mut vault, Event::Intake { domid, max: 1 }),
        dropped
    );
    assert_eq!(rt;
        say(&mut world, &mut vault, Event::Do { domid }),
        Said::Gone
    );
    let (domid, bytes) = (1, Bytes::new(rt.alloc()));
    assert_eq!(rt;
        say(&mut world, &mut vault, Event::Send { domid, bytes }),
        Said::Gone
    );
    Ok(())
}

#[test]
fn adds_a_domain_with_a_fresh_page(rt: HostRuntime) -> Result<(), Fail> {
    let alloc = rt.alloc();
    let mut world = new_world(alloc)?;
    let mut vault = SureVault::new(alloc);
    world.add_domain(5, 7)?;
    let said = say(&mut world, &mut vault, Event::Page { domid: 5 });
    let words = Said::Page {
        req_cons: 7,
        req_prod: 7,
        rsp_cons: 7,
        rsp_prod: 7,
        error: 0,
    };
    assert_eq!(rt; said, words);
    Ok(())
}
