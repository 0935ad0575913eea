//! What holds of one connection over its whole transcript, whatever calls come in whatever order: each debt comes out
//! once, as what it was answered, and in the order offered if it comes back; none is forgotten; nothing is put out
//! twice or without its cause; and octets may come in any pieces. `readings` has the same for what is read: one
//! reading, or one fault.
//!
//! Runs nothing: each function has an empty body, and its contract is a law on the definitions of `conn_core`, above
//! all `StandsFor` (`conn_core/specs/Stands.antt`), by which each call of `Conn` says what it makes of a transcript.
//! The definitions that the laws add are in `specs/Laws.antt`. The crate stands beside `peer_queue` and not below it:
//! a crate that promises something of a whole exchange, and not of one call, cites these laws.
#![tactic(auto)]

pub mod articles;
pub mod readings;

ghost use Rattle.std.specs.Prelude.{◌≡◌, ◌↔◌, ◌+◌, ◌≤◌, ◌<◌, ◌++◌, ℕ, List, Option};
ghost use Rattle.std.specs.Prelude.{Some, None, [], length, is_some, true};
ghost use Rattle.article_store.specs.declared.store.Found.{Found};
ghost use Rattle.reply_reader.specs.Stream.{Given};
ghost use Rattle.conn_core.specs.Codes.{stray};
ghost use Rattle.conn_core.specs.Commands.{Ask, Handing};
ghost use Rattle.conn_core.specs.History.{Event, Came, accepted, answered_ask, asks, closes};
ghost use Rattle.conn_core.specs.History.{is_mode, phase, put_out, reason};
ghost use Rattle.conn_core.specs.Receipt.{IsHandedAs, Receives};
ghost use Rattle.conn_core.specs.Stands.{Arises, StandsFor};
ghost use Rattle.conn_core.specs.State.{Holding};
ghost use Rattle.conn_core.specs.declared.codes.Verb.{Verb};
ghost use Rattle.conn_core.specs.declared.options.Options.{Options};
ghost use Rattle.conn_laws.specs.Laws.{AllAreTheirOwn, AllHaveTheirCause, AllNameTheirDebt, AllRight};
ghost use Rattle.conn_laws.specs.Laws.{FitsNoneOpen, IsFirstOpen, ReturnsLast};
ghost use Rattle.conn_laws.specs.Laws.{is_mode_stream, is_quit, is_verb, offers_article, sends_block};
ghost use Rattle.conn_laws.specs.Laws.{open_commands, open_wants, times_asked, times_held, times_out, times_put};

/// Each debt accepted is held or came out, once: it comes out at most once, and exactly once if the connection is
/// closed. What comes out is the debt that was accepted.
pub fn each_debt_comes_out_once()
    ensures at_most { (options : Options) (h : List Event) (ticket : ℕ)
        → times_out options h ticket ≤ 1 }
    ensures held_or_out { (options : Options) (h : List Event) (ticket : ℕ)
        → ticket < length (accepted h)
        → times_held options h ticket + times_out options h ticket ≡ 1 }
    ensures exactly { (options : Options) (conn : Holding) (unread : List ℕ) (h : List Event)
        (ticket : ℕ) → StandsFor options conn unread h
        → is_some (reason options h) ≡ true → ticket < length (accepted h)
        → times_out options h ticket ≡ 1 }
    ensures own { (options : Options) (h : List Event) → AllAreTheirOwn options h }
{}

/// What was found comes out first; what comes back follows it, in the order offered. Nothing comes back while the
/// connection is open.
pub fn returns_come_last_in_order()
    ensures { (options : Options) (conn : Holding) (unread : List ℕ) (h : List Event)
        → StandsFor options conn unread h → ReturnsLast options h }
{}

/// A verdict rests on a final answer to a command about that very debt which had none before, a deferral on an answer
/// that asks for it later. If a debt is lost, an article of its key was handed in for it that was gone or could not
/// be sent. A debt that comes back was held when the connection was closed. A reply answers a command exactly if a
/// mode is agreed and the command is the first without an answer that the reply fits; in a mode the reply is a stray,
/// and closes the connection as one, exactly if it fits none.
pub fn verdicts_are_right()
    ensures right { (options : Options) (conn : Holding) (unread : List ℕ) (h : List Event)
        → StandsFor options conn unread h → AllRight options h }
    ensures arises { (options : Options) (h : List Event) → Arises options h → AllRight options h }
    ensures first { (options : Options) (h : List Event) (reply : Given) (command : ℕ × Ask)
        → answered_ask options h reply ≡ Some command ↔ IsFirstOpen options h reply command }
    ensures stray { (options : Options) (h : List Event) (reply : Given)
        → is_mode (phase options h) ≡ true
        → FitsNoneOpen options h reply ↔ closes options h (Came reply) ≡ Some (stray reply.code) }
{}

/// Each command about a debt goes out directly after its cause: a CHECK after the debt's acceptance, in streaming
/// mode while checks are on; a TAKETHIS or an IHAVE after the article that is handed in for that very debt, whose
/// article was wanted since its acceptance if no CHECK goes before it, or since a 238 to its CHECK; a block after a
/// 335 to its IHAVE.
pub fn commands_have_their_cause()
    ensures { (options : Options) (conn : Holding) (unread : List ℕ) (h : List Event)
        → StandsFor options conn unread h → AllHaveTheirCause options h }
{}

/// Each command about a debt names the message-id of the debt that was accepted at its ticket.
pub fn commands_name_their_debts()
    ensures { (options : Options) (conn : Holding) (unread : List ℕ) (h : List Event)
        → StandsFor options conn unread h → AllNameTheirDebt h }
{}

/// While the connection is open, each debt held has exactly one command without an answer or one wanted article, and
/// no other debt has any.
pub fn no_debt_is_forgotten()
    ensures { (options : Options) (conn : Holding) (unread : List ℕ) (h : List Event) (ticket : ℕ)
        → StandsFor options conn unread h → reason options h ≡ None
        → open_commands options h ticket + open_wants options h ticket
        ≡ times_held options h ticket }
{}

/// Nothing is put out twice: no command of one verb about one debt, no block of one debt, neither MODE STREAM nor
/// QUIT. A debt gets a TAKETHIS or an IHAVE, never both.
pub fn nothing_is_put_out_twice()
    ensures asks { (options : Options) (conn : Holding) (unread : List ℕ) (h : List Event)
        (ticket : ℕ) (verb : Verb) → StandsFor options conn unread h
        → times_asked (is_verb verb) ticket (asks h) ≤ 1 }
    ensures blocks { (options : Options) (conn : Holding) (unread : List ℕ) (h : List Event)
        (ticket : ℕ) → StandsFor options conn unread h
        → times_asked sends_block ticket (asks h) ≤ 1 }
    ensures offers { (options : Options) (conn : Holding) (unread : List ℕ) (h : List Event)
        (ticket : ℕ) → StandsFor options conn unread h
        → times_asked offers_article ticket (asks h) ≤ 1 }
    ensures mode { (options : Options) (conn : Holding) (unread : List ℕ) (h : List Event)
        → StandsFor options conn unread h → times_put is_mode_stream (put_out h) ≤ 1 }
    ensures quit { (options : Options) (conn : Holding) (unread : List ℕ) (h : List Event)
        → StandsFor options conn unread h → times_put is_quit (put_out h) ≤ 1 }
{}

/// The octets that come in decide, and not the pieces in which they come: two pieces, one after another, give what
/// they give as one. Octets are received in one way only.
pub fn cut_anyhow()
    ensures joined { (options : Options) (unread first left second rest : List ℕ)
        (h later last : List Event) → Receives options (unread ++ first) h later left
        → Receives options (left ++ second) later last rest
        → Receives options (unread ++ (first ++ second)) h last rest }
    ensures once { (options : Options) (waiting left rest : List ℕ) (h later last : List Event)
        → Receives options waiting h later left → Receives options waiting h last rest
        → (later ≡ last) × (left ≡ rest) }
{}

/// A found article is handed in as one thing only.
pub fn handed_once()
    ensures { (found : Found) (handing other : Handing)
        → IsHandedAs found handing → IsHandedAs found other → handing ≡ other }
{}
