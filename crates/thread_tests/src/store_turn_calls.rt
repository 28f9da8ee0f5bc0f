//! Worked turns, found by hand.

ghost use Rattle.std.specs.Prelude.{◌≡◌, All, IfOk};

use std::alloc::Global;
use std::marker::Model;
use std::sync::Wait;
use std::test::Fail;
use std::thread::{Threads, join, map_vec};
use store_turn::{Caller, Callers, History, NoMemory, Object, Turn};

/// A list of numbers. An op appends its number, and is answered by how many there were before.
#[derive(Drop)]
struct Numbers {
    items: Vec<u32>,
}

impl Model for Numbers {
    ghost use Rattle.std.specs.Prelude.{ℕ, List};

    ghost Value = { List ℕ };

    ghost view = { λ numbers. numbers.items.items };
}

impl Object for Numbers {
    ghost use Rattle.std.specs.Prelude.{◌∷◌, ◌++◌, [], length, false, ⊤};

    type Op = u32;

    type Answer = usize;

    ghost next = { λ numbers op. numbers ++ op ∷ [] };

    ghost answer = { λ numbers op. length numbers };

    ghost fits = { λ op. ⊤ };

    ghost is_quiet = { λ given. false };

    fn apply(&mut self, op: &u32) -> Result<usize, NoMemory> {
        let count = self.items.len();
        self.items.push(*op)?;
        Ok(count)
    }

    fn quiet(_given: &usize) -> bool {
        false
    }
}

/// Makes three calls, and says whether all were answered.
fn call_thrice<R: Wait>(
    rt: &R,
    turn: &Turn<Numbers>,
    mut caller: Caller<Numbers>,
    ops: [u32; 3],
) -> (Caller<Numbers>, bool)
    requires own { caller.turn ≡ turn.now.id }
    ensures { result.0.turn ≡ turn.now.id }
{
    let [first, second, third] = ops;
    let first = turn.call(rt, &mut caller, first).is_ok();
    let second = turn.call(rt, &mut caller, second).is_ok();
    let third = turn.call(rt, &mut caller, third).is_ok();
    (caller, first & second & third)
}

/// Three calls of each of two callers, on threads of their own.
fn call_beside<R: Threads + Wait + Sync>(
    rt: &R,
    turn: &Turn<Numbers>,
    one: Caller<Numbers>,
    two: Caller<Numbers>,
) -> ((Caller<Numbers>, bool), (Caller<Numbers>, bool))
    requires own { (one.turn ≡ turn.now.id) × (two.turn ≡ turn.now.id) }
    ensures { (result.0.0.turn ≡ turn.now.id) × (result.1.0.turn ≡ turn.now.id) }
{
    join(
        rt,
        move || -> (Caller<Numbers>, bool)
            requires { one.turn ≡ turn.now.id }
            ensures { result.0.turn ≡ turn.entry.now.id }
        { call_thrice(rt, turn, one, [0, 1, 2]) },
        move || -> (Caller<Numbers>, bool)
            requires { two.turn ≡ turn.now.id }
            ensures { result.0.turn ≡ turn.entry.now.id }
        { call_thrice(rt, turn, two, [100, 101, 102]) },
    )
}

/// Whether the numbers of each caller rise by one, from the one that `next` has at its place. It leaves there the one that
/// would follow.
fn in_order(history: &History<Numbers>, next: &mut [u32]) -> bool {
    for place in 0..history.len() {
        let Some(entry) = history.at(place) else {
            return false;
        };
        let Some(want) = next.get_mut(entry.caller as usize) else {
            return false;
        };
        if entry.op != *want {
            return false;
        }
        *want = want.wrapping_add(1);
    }
    true
}

#[test]
fn two_threads_make_three_calls_each(rt: HostRuntime) -> Result<(), Fail> {
    let numbers = Numbers {
        items: Vec::new(rt.alloc()),
    };
    let (turn, mut callers) = Turn::new(rt.alloc(), numbers, 2)?;
    let Some(one) = callers.take() else {
        panic!(rt; "no caller is there")
    };
    let Some(two) = callers.take() else {
        panic!(rt; "one caller is there")
    };
    let ((one, by_one), (two, by_two)) = call_beside(&rt, &turn, one, two);
    callers.give(two);
    callers.give(one);
    assert!(rt; by_one && by_two && callers.all_there());
    let (numbers, history) = turn.close(callers);
    let mut next = [0, 100];
    assert!(rt; numbers.items.len() == 6 && history.len() == 6);
    assert!(rt; in_order(&history, &mut next) && next == [3, 103]);
    Ok(())
}

/// Makes a thousand calls, and says whether all were answered.
fn call_often<R: Wait>(
    rt: &R,
    turn: &Turn<Numbers>,
    mut caller: Caller<Numbers>,
) -> (Caller<Numbers>, bool)
    requires own { caller.turn ≡ turn.now.id }
    ensures { result.0.turn ≡ turn.now.id }
{
    let mut all = true;
    for number in 0..1000 {
        all &= turn.call(rt, &mut caller, number).is_ok();
    }
    (caller, all)
}

/// A thousand calls of each of these callers, on threads of their own.
fn call_in_threads<R: Threads + Wait + Sync>(
    rt: &R,
    turn: &Turn<Numbers>,
    callers: Vec<Caller<Numbers>>,
) -> Result<Vec<(Caller<Numbers>, bool)>, NoMemory>
    requires { All (λ caller. caller.turn ≡ turn.now.id) callers.items }
    ensures { IfOk result (λ back. All (λ one. one.0.turn ≡ turn.now.id) back.items) }
{
    map_vec(
        rt,
        callers,
        &|caller: Caller<Numbers>| -> (Caller<Numbers>, bool)
            requires { caller.turn ≡ turn.now.id }
            ensures { result.0.turn ≡ turn.entry.now.id }
        { call_often(rt, turn, caller) },
    )
}

/// Takes eight callers, or all that are there.
fn take_all(alloc: Global, callers: &mut Callers<Numbers>) -> Result<Vec<Caller<Numbers>>, NoMemory>
    ensures turn { callers.new.turn ≡ callers.old.turn }
    ensures own { IfOk result (λ taken. All (λ caller. caller.turn ≡ callers.old.turn) taken.items) }
{
    let mut taken = Vec::new(alloc);
    for _ in 0..8 {
        if let Some(caller) = callers.take() {
            taken.push(caller)?;
        }
    }
    Ok(taken)
}

/// Gives these callers back, and says whether all their calls were answered.
fn give_all(callers: &mut Callers<Numbers>, mut back: Vec<(Caller<Numbers>, bool)>) -> bool
    requires own { All (λ one. one.0.turn ≡ callers.old.turn) back.items }
    ensures turn { callers.new.turn ≡ callers.old.turn }
{
    let mut all = true;
    while let Some((caller, answered)) = back.pop() {
        callers.give(caller);
        all &= answered;
    }
    all
}

#[test]
fn eight_threads_make_a_thousand_calls_each(rt: HostRuntime) -> Result<(), Fail> {
    let numbers = Numbers {
        items: Vec::new(rt.alloc()),
    };
    let (turn, mut callers) = Turn::new(rt.alloc(), numbers, 8)?;
    let taken = take_all(rt.alloc(), &mut callers)?;
    let back = call_in_threads(&rt, &turn, taken)?;
    let answered = give_all(&mut callers, back);
    assert!(rt; answered && callers.all_there());
    let (numbers, history) = turn.close(callers);
    let mut next = [0; 8];
    assert!(rt; numbers.items.len() == 8000 && history.len() == 8000);
    assert!(rt; in_order(&history, &mut next) && next == [1000; 8]);
    Ok(())
}

/// The last number that was told. It finds no memory for 0, and answers nothing told by a quiet `false`.
#[derive(Drop)]
struct Memo {
    last: u32,
}

impl Model for Memo {
    ghost use Rattle.std.specs.Prelude.{ℕ};

    ghost Value = { ℕ };

    ghost view = { λ memo. memo.last };
}

impl Object for Memo {
    ghost use Rattle.std.specs.Prelude.{not, ⊤};
    ghost use Rattle.std.specs.Option.{is_some, unwrap_or};

    type Op = Option<u32>;

    type Answer = bool;

    ghost next = { λ memo op. unwrap_or op memo };

    ghost answer = { λ memo op. is_some op };

    ghost fits = { λ op. ⊤ };

    ghost is_quiet = { λ given. not given };

    fn apply(&mut self, op: &Option<u32>) -> Result<bool, NoMemory> {
        match op {
            None => Ok(false),
            Some(0) => Err(NoMemory),
            Some(number) => {
                self.last = *number;
                Ok(true)
            }
        }
    }

    fn quiet(given: &bool) -> bool {
        !*given
    }
}

#[test]
fn refused_and_quiet_calls_leave_no_entry(rt: HostRuntime) -> Result<(), Fail> {
    let (turn, mut callers) = Turn::new(rt.alloc(), Memo { last: 7 }, 1)?;
    let Some(mut one) = callers.take() else {
        panic!(rt; "no caller is there")
    };
    let refused = turn.call(&rt, &mut one, Some(0)).is_err();
    let quiet = turn.call(&rt, &mut one, None).is_ok();
    let told = turn.call(&rt, &mut one, Some(3)).is_ok();
    callers.give(one);
    assert!(rt; refused && quiet && told && callers.all_there());
    let (memo, history) = turn.close(callers);
    assert!(rt; memo.last == 3 && history.len() == 1);
    Ok(())
}

/// What holds a caller beside data of its own.
#[derive(Drop)]
struct Port<O: Object> {
    _caller: Caller<O>,
    _inbox: Vec<u8>,
}

fn crosses<T: Send>(_value: &T) {}

/// A struct that holds a caller may go to another thread, for every object.
fn port_crosses<O: Object>(port: &Port<O>) {
    crosses(port);
}
