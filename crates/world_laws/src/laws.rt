//! What every run of the world does for its guests. A law is a function that does nothing: its clause is the
//! law, for every list of served message types, every world with nothing under way, and every list of events.
ghost use Rattle.world_laws.specs.Laws.{RunsServe, UnpokedPagesBalance, PagesHaveLives, ConnectedDomainsHaveLogs, AccountsAreOfRuns, ScriptsStart};
ghost use Rattle.world_laws.specs.Handovers.{DeletingHandoversChangesNothing, HandoversMayBeDeleted, TranscriptsHideHandovers};

/// For each page that there was and that its guest did not poke: the bytes of the requests that the store took
/// from the life of the page's connection, followed by its inbox, are the first of what the guest put, and what
/// the guest got is the first of what the store sent to that life.
pub fn runs_serve()
    ensures { RunsServe }
{}

/// While a page that its guest did not poke is there and its connection lives, what the store took, the inbox
/// and the request ring joined are what the guest put; what the guest got, the reply ring and the unsent bytes
/// joined are what the store sent.
pub fn unpoked_pages_balance()
    ensures { UnpokedPagesBalance }
{}

/// Each log names a life that there was, and a page that it says is there is there. The life is open where the
/// page is there and its domain is connected, and nowhere else; then it is the life of the domain's connection,
/// which has a channel. And each domain that is connected has such a log.
pub fn pages_have_lives()
    ensures lives { PagesHaveLives }
    ensures logs { ConnectedDomainsHaveLogs }
{}

/// An account of events tells of the world after them, and of the history of the store that they made.
pub fn accounts_are_of_runs()
    ensures { AccountsAreOfRuns }
{}

/// The world of a script's head lines is a start: each connected domain has an empty page, each connection a channel.
pub fn scripts_start()
    ensures { ScriptsStart }
{}

/// A transcript without the lines that tell of handovers is that of the script without handovers, whatever these
/// say. A script's text without its lines `handover` is a text of that script, so the same holds of texts.
pub fn handovers_do_not_show()
    ensures transcripts { DeletingHandoversChangesNothing }
    ensures scripts { HandoversMayBeDeleted }
    ensures texts { TranscriptsHideHandovers }
{}
