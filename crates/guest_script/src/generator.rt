//! The numbers of a made script, what they choose, and what was made for each domain.

ghost use Rattle.std.specs.Prelude.{◌≡◌};
ghost use Rattle.guest_script.specs.Made.{next_number, drawn_from, choice_in, may_watch, known_after};

use std::marker::Model;

/// How many domains take part: 0 to 3.
const DOMAINS: usize = 4;

/// How many watches are made for a domain at the most.
const WATCHES: u32 = 4;

/// The kind of a request.
#[derive(Clone, Copy, Debug, PartialEq, Eq)]
pub enum Choice {
    Read,
    Write,
    Mkdir,
    Rm,
    Directory,
    GetPerms,
    /// The start of a transaction, or the end of the one that was left open.
    Transaction,
    /// A watch, or a read where there are enough.
    Watch,
}

/// What was made for a domain so far.
#[derive(Clone, Copy, Debug, PartialEq, Eq)]
pub struct Known {
    /// Whether a transaction was left open.
    pub is_open: bool,
    /// How many watches there are.
    pub watches: u32,
}

/// A generator of numbers, and what was made by them for each domain.
#[derive(Drop)]
pub struct Generator {
    number: u64,
    known: [Known; DOMAINS],
}

impl Model for Generator {
    ghost use Rattle.guest_script.specs.Made.{Generator};

    ghost Value = { Generator };

    ghost view = { λ g. record { number = g.number; known = g.known } };
}

impl Generator {
    ghost use Rattle.guest_script.specs.Made.{begun, drawn, known_to, past, domid_in};

    /// The generator of a seed. Nothing was made yet.
    pub fn new(seed: u64) -> Generator
        ensures { result ≡ begun seed }
    {
        let nothing = Known {
            is_open: false,
            watches: 0,
        };
        Generator {
            number: seed,
            known: [nothing; DOMAINS],
        }
    }

    /// The number that is drawn next, and what was made for its domain.
    pub fn draw(&mut self) -> (u32, Known)
        ensures drawn { result.0 ≡ drawn self.old }
        ensures known { result.1 ≡ known_to self.old (domid_in (drawn self.old)) }
        ensures past { self.new ≡ past self.old }
    {
        self.number = next_number(self.number);
        let drawn = drawn_from(self.number);
        let domain = drawn as usize % DOMAINS;
        let known = self.known[domain];
        self.known[domain] = known_after(choice_in(drawn), known);
        (drawn, known)
    }
}

/// The number behind a number.
fn next_number(number: u64) -> u64
    ensures { result ≡ next_number number }
{
    number
        .wrapping_mul(6_364_136_223_846_793_005)
        .wrapping_add(1_442_695_040_888_963_407)
}

/// What is drawn from a number: its upper 31 bits.
#[tactic(auto, unfolding(crate::specs::Made::drawn_from))]
fn drawn_from(number: u64) -> u32
    ensures { result ≡ drawn_from number }
{
    (number >> 33) as u32
}

/// The kind that a drawn number chooses.
pub fn choice_in(drawn: u32) -> Choice
    ensures { result ≡ choice_in drawn }
{
    match drawn / 4 % 8 {
        0 => Choice::Read,
        1 => Choice::Write,
        2 => Choice::Mkdir,
        3 => Choice::Rm,
        4 => Choice::Directory,
        5 => Choice::GetPerms,
        6 => Choice::Transaction,
        _ => Choice::Watch,
    }
}

/// Whether one watch more may be made.
pub fn may_watch(known: Known) -> bool
    ensures { result ≡ may_watch known }
{
    known.watches < WATCHES
}

/// What was made for a domain with one request more.
fn known_after(choice: Choice, known: Known) -> Known
    ensures { result ≡ known_after choice known }
{
    match choice {
        Choice::Transaction => Known {
            is_open: !known.is_open,
            ..known
        },
        Choice::Watch if may_watch(known) => Known {
            watches: known.watches + 1,
            ..known
        },
        _ => known,
    }
}
