// One connection, as the crates above see it: the contract of each call speaks of the whole transcript.
ghost use Rattle.std.specs.Prelude.{◌≡◌, ◌↔◌, ◌≤◌, ◌<◌, ◌++◌, ℕ, List, [], ◌∷◌};
ghost use Rattle.std.specs.Prelude.{Option, Some, None, length, is_some, option_to_list, true, IfNone, IfOk, IfErr};
ghost use Rattle.std.specs.Prelude.{IsOk, OnOk, OnErr};
ghost use Rattle.std.specs.Prelude.{option_map};
ghost use Rattle.std.specs.Option.{option_copied};
ghost use Rattle.ledger_core.specs.State.{Owing};
ghost use Rattle.conn_core.specs.Commands.{Handing};
ghost use Rattle.conn_core.specs.Left.{IsLeftOpen, IsReading, ReadsOne, size_of};
ghost use Rattle.conn_core.specs.History.{Event, Offered, Handed, Sent, Tick, Broke, Leave, reason, checks, need};
ghost use Rattle.conn_core.specs.History.{first_unanswered, first_wanted, has_answered};
ghost use Rattle.conn_core.specs.History.{needed, output, after, outside, noted};
ghost use Rattle.conn_core.specs.Mode.{mode};
ghost use Rattle.conn_core.specs.Receipt.{IsHandedAs, IsSendableArticle, Receives, ReceivesSome};
ghost use Rattle.conn_core.specs.Stands.{Refuses, RefusesArticle, StandsFor, Takes, left_behind, ready_of};
ghost use Rattle.conn_core.specs.State.{output_at, untold_at};
ghost use Rattle.conn_core.specs.declared.options.Options.{Options};

use crate::article::ArticleFault;
use crate::machine::Machine;
use crate::mode::Mode;
use crate::offer::{Back, OfferFault};
use crate::options::{CxnId, Options};
use crate::outcome::Outcome;
use crate::ready::Ready;
use crate::reason::Reason;
use article_store::Found;
use ledger_core::{Debt, Key};
use reply_reader::{Reply, ReplyFault, ReplyReader};
use std::alloc::{AllocError, Global};
use std::marker::Model;

/// The sending side of one NNTP connection: debts, replies and articles go in; commands and outcomes come out.
#[derive(Drop)]
pub struct Conn {
    id: CxnId,
    reader: ReplyReader,
    machine: Machine,
    // The reply that closed it, if `refusal` keeps it. Contracts do not see it.
    refused: Option<Reply>,
}

impl Model for Conn {
    ghost use Rattle.conn_core.specs.State.{Holding};

    ghost Value = { Holding };

    ghost view = { λ conn. record { id = conn.id; reader = conn.reader; state = conn.machine } };
}

// The reply, if it closed the connection for one of the reasons for which a log names it.
fn refusal(closed: Option<Reason>, reply: Reply) -> Option<Reply> {
    match closed {
        Some(Reason::Greeting(_) | Reason::Ended(_) | Reason::Unmatched) => Some(reply),
        _ => None,
    }
}

impl Conn {
    /// A new connection with this number and these options. It allocates from `alloc`.
    ///
    /// # Errors
    /// `NoMemory` if memory was refused.
    pub fn new(alloc: Global, id: CxnId, options: Options) -> Result<Self, AllocError>
        ensures ok { IfOk result (λ conn. StandsFor options conn [] []) }
        ensures id { IfOk result (λ conn. conn.id ≡ id) }
    {
        Ok(Conn {
            id,
            reader: ReplyReader::new(alloc),
            machine: Machine::new(alloc, options)?,
            refused: None,
        })
    }

    pub fn id(&self) -> CxnId
        ensures { result ≡ self.now.id }
    {
        self.id
    }

    /// Whether a debt can be offered.
    pub fn ready(&self) -> Ready
        ensures { (options : Options) (unread : List ℕ) (h : List Event)
            → StandsFor options self.now unread h → result ≡ ready_of options h }
    {
        self.machine.ready()
    }

    /// The mode that its peer has agreed to: `None` before that, after QUIT is out, and once it is closed.
    pub fn mode(&self) -> Option<Mode>
        ensures { (options : Options) (unread : List ℕ) (h : List Event)
            → StandsFor options self.now unread h → result ≡ mode options h }
    {
        self.machine.mode()
    }

    /// Takes a debt: a CHECK goes out, or its article is wanted.
    ///
    /// # Errors
    /// The debt comes back, and nothing changes. `Closed` if the connection is closed or was asked to quit; otherwise
    /// `Busy` if no mode is agreed or as many debts are held as the mode allows; otherwise `NoMemory` if memory was
    /// refused.
    pub fn offer(&mut self, debt: Debt) -> Result<(), Back>
        ensures ok { OnOk result
            ((options : Options) (unread : List ℕ) (h : List Event)
            → StandsFor options self.old unread h
            → (ready_of options h ≡ Ready.Yes)
            × StandsFor options self.new unread (after options h (Offered debt))) }
        ensures refuses { IfErr result
            (λ back. (options : Options) (unread : List ℕ) (h : List Event)
            → StandsFor options self.old unread h
            → Refuses back.fault (ready_of options h)) }
        ensures returned { IfErr result (λ back. back.debt ≡ debt) }
        ensures unchanged { OnErr result (self.new ≡ self.old) }
        ensures same_id { self.new.id ≡ self.old.id }
    {
        match self.machine.ready() {
            Ready::Shut => {
                return Err(Back {
                    debt,
                    fault: OfferFault::Closed,
                });
            }
            Ready::Busy => {
                return Err(Back {
                    debt,
                    fault: OfferFault::Busy,
                });
            }
            Ready::Yes => {}
        }
        if let Err(debt) = self.machine.offer(debt) {
            return Err(Back {
                debt,
                fault: OfferFault::NoMemory,
            });
        }
        Ok(())
    }

    /// The key whose article has been wanted longest. `None` if no article is wanted, and once closed.
    pub fn need(&self) -> Option<Key>
        ensures { (options : Options) (unread : List ℕ) (h : List Event)
            → StandsFor options self.now unread h → result ≡ need options h }
    {
        self.machine.need()
    }

    /// The debt whose article has been wanted longest. `None` if no article is wanted, and once closed. Its key is
    /// that of [`Conn::need`].
    pub fn wanted(&self) -> Option<&Debt>
        ensures value { (options : Options) (unread : List ℕ) (h : List Event)
            → StandsFor options self.now unread h
            → option_copied result ≡ first_wanted options h }
        ensures key { (options : Options) (unread : List ℕ) (h : List Event)
            → StandsFor options self.now unread h
            → option_map (λ (debt : Owing). debt.0) (option_copied result) ≡ need options h }
    {
        self.machine.wanted()
    }

    /// Takes the article for the first want of that key: it goes out, by TAKETHIS or IHAVE, or the debt is lost.
    ///
    /// # Errors
    /// What was found comes back, and nothing changes. `NotNeeded` if no article of that key is wanted, or the
    /// connection is closed; otherwise `NoMemory` if the text can be sent and memory was refused.
    pub fn article(&mut self, key: Key, found: Found) -> Result<(), (Found, ArticleFault)>
        ensures ok { OnOk result
            ((options : Options) (unread : List ℕ) (h : List Event)
            → StandsFor options self.old unread h
            → (is_some (needed options h key) ≡ true)
            × ((handing : Handing) × IsHandedAs found handing
            × StandsFor options self.new unread (after options h (Handed key handing)))) }
        ensures refuses { IfErr result
            (λ e. (options : Options) (unread : List ℕ) (h : List Event)
            → StandsFor options self.old unread h
            → RefusesArticle e.1 (needed options h key)) }
        ensures no_memory { IfErr result
            (λ e. e.1 ≡ ArticleFault.NoMemory → IsSendableArticle found) }
        ensures returned { IfErr result (λ e. e.0 ≡ found) }
        ensures unchanged { OnErr result (self.new ≡ self.old) }
        ensures same_id { self.new.id ≡ self.old.id }
    {
        if !self.machine.needs(key) {
            return Err((found, ArticleFault::NotNeeded));
        }
        if let Err(_) = self.machine.on_article(key, &found) {
            return Err((found, ArticleFault::NoMemory));
        }
        Ok(())
    }

    /// Takes octets from the server: each whole reply, in order; the beginning of another is held back. After a fault
    /// of the reader, or once closed, the octets are dropped.
    ///
    /// # Errors
    /// `NoMemory` if memory was refused while it was open: some of the whole replies were taken, from the first on,
    /// and it is closed as by [`Conn::broken`].
    pub fn input(&mut self, octets: &[u8]) -> Result<(), AllocError>
        ensures ok { OnOk result
            ((options : Options) (unread : List ℕ) (h : List Event)
            → StandsFor options self.old unread h
            → (later : List Event) × (left : List ℕ)
            × Receives options (unread ++ octets.now) h later left
            × StandsFor options self.new left later) }
        ensures err { OnErr result
            ((options : Options) (unread : List ℕ) (h : List Event)
            → StandsFor options self.old unread h
            → (later : List Event) × ReceivesSome options (unread ++ octets.now) h later
            × StandsFor options self.new [] (after options later Broke)) }
        ensures dropped { (options : Options) (unread : List ℕ) (h : List Event)
            → StandsFor options self.old unread h → is_some (reason options h) ≡ true
            → IsOk result }
        ensures same_id { self.new.id ≡ self.old.id }
    {
        if self.machine.closed().is_some() {
            return Ok(());
        }
        match self.take_in(octets) {
            Ok(()) => Ok(()),
            Err(refused) => {
                self.machine.broken();
                Err(refused)
            }
        }
    }

    // Takes each whole reply while the connection is open. It stays open if memory was refused.
    fn take_in(&mut self, octets: &[u8]) -> Result<(), AllocError>
        ensures ok { OnOk result
            ((options : Options) (unread : List ℕ) (h : List Event)
            → StandsFor options self.old unread h → reason options h ≡ None
            → (later : List Event) × (left : List ℕ)
            × Receives options (unread ++ octets.now) h later left
            × StandsFor options self.new left later) }
        ensures err { OnErr result
            ((options : Options) (unread : List ℕ) (h : List Event)
            → StandsFor options self.old unread h → reason options h ≡ None
            → (later : List Event) × ReceivesSome options (unread ++ octets.now) h later
            × IsLeftOpen options self.new later) }
        ensures same_id { self.new.id ≡ self.old.id }
    {
        self.reader.feed(octets)?;
        while self.read_one()? {}
        Ok(())
    }

    // Takes the first whole reply, and returns whether there may be another.
    fn read_one(&mut self) -> Result<bool, AllocError>
        ensures read { IfOk result
            (λ more. (options : Options) (waiting : List ℕ) (h : List Event)
            → IsReading options self.old waiting h
            → ReadsOne options waiting h self.new more) }
        ensures shorter { IfOk result
            (λ more. more ≡ true → size_of self.new.reader < size_of self.old.reader) }
        ensures err { OnErr result
            ((options : Options) (waiting : List ℕ) (h : List Event)
            → IsReading options self.old waiting h
            → IsLeftOpen options self.new h) }
        ensures same_id { self.new.id ≡ self.old.id }
    {
        match self.reader.next() {
            Ok(Some(reply)) => {
                self.machine.on_reply(&reply)?;
                let closed = self.machine.closed();
                self.refused = refusal(closed, reply);
                Ok(closed.is_none())
            }
            Ok(None) => Ok(false),
            Err(fault) => match fault {
                ReplyFault::NoMemory => Err(AllocError),
                _ => {
                    self.machine.on_fault(fault);
                    Ok(false)
                }
            },
        }
    }

    /// Sets the time, in seconds. The connection closes if an answer is late; a closed connection stays as it is.
    pub fn tick(&mut self, now: u64)
        ensures stands { (options : Options) (unread : List ℕ) (h : List Event)
            → StandsFor options self.old unread h
            → let later = outside options h (Tick now) in StandsFor options self.new
            (left_behind options unread later) later }
        ensures same_id { self.new.id ≡ self.old.id }
    {
        self.machine.tick(now)
    }

    /// Closes the connection because its link broke. A closed one stays as it is.
    pub fn broken(&mut self)
        ensures stands { (options : Options) (unread : List ℕ) (h : List Event)
            → StandsFor options self.old unread h
            → StandsFor options self.new [] (outside options h Broke) }
        ensures same_id { self.new.id ≡ self.old.id }
    {
        self.machine.broken()
    }

    /// From now on no debt is taken, and QUIT goes out once none is held and a mode is agreed.
    pub fn quit(&mut self)
        ensures stands { (options : Options) (unread : List ℕ) (h : List Event)
            → StandsFor options self.old unread h
            → StandsFor options self.new unread (outside options h Leave) }
        ensures same_id { self.new.id ≡ self.old.id }
    {
        self.machine.quit()
    }

    /// Whether a CHECK goes before each TAKETHIS.
    pub fn checks(&self) -> bool
        ensures { (options : Options) (unread : List ℕ) (h : List Event)
            → StandsFor options self.now unread h → result ≡ checks options h }
    {
        self.machine.checks()
    }

    /// The octets that are still to be sent, in order; none once closed.
    pub fn output(&self) -> &[u8]
        ensures stands { (options : Options) (unread : List ℕ) (h : List Event)
            → StandsFor options self.now unread h → result.now ≡ output options h }
        ensures now { result.now ≡ output_at self.now }
    {
        self.machine.output()
    }

    /// Counts the first `count` octets of the output as sent. A closed connection has no output and stays as it is.
    pub fn sent(&mut self, count: usize)
        requires { count ≤ length (output_at self.old) }
        ensures stands { (options : Options) (unread : List ℕ) (h : List Event)
            → StandsFor options self.old unread h
            → StandsFor options self.new unread (noted options h (Sent count)) }
        ensures same_id { self.new.id ≡ self.old.id }
    {
        self.machine.sent(count)
    }

    /// How many octets its output has room for, those that are still to be sent included. What was sent leaves its
    /// room, for what comes next: up to 4,194,304 octets, if nothing is still to be sent.
    pub fn output_room(&self) -> usize
        ensures { length (output_at self.now) ≤ result }
    {
        self.machine.output_room()
    }

    /// Gives the room of its output back, all but that of a QUIT and of the octets that are still to be sent, which are
    /// copied. If memory is refused for that, the room stays. It stands for the same transcripts, and its output is the
    /// same.
    pub fn give_room_back(&mut self)
        ensures { self.new ≡ self.old }
    {
        self.machine.give_room_back()
    }

    /// The next outcome, oldest first; `None` if there is none now.
    pub fn outcome(&mut self) -> Option<Outcome>
        ensures stands { (options : Options) (unread : List ℕ) (h : List Event)
            → StandsFor options self.old unread h → Takes options unread h result self.new }
        ensures told { untold_at self.old ≡ option_to_list result ++ untold_at self.new }
        ensures none_left { IfNone result (untold_at self.new ≡ []) }
        ensures same_id { self.new.id ≡ self.old.id }
    {
        self.machine.outcome()
    }

    /// Why it closed: `None` while it is open.
    pub fn closed(&self) -> Option<Reason>
        ensures { (options : Options) (unread : List ℕ) (h : List Event)
            → StandsFor options self.now unread h → result ≡ reason options h }
    {
        self.machine.closed()
    }

    /// The reply that closed it, for a log, if it closed for [`Reason::Greeting`], [`Reason::Ended`] or
    /// [`Reason::Unmatched`]. `None` while it is open, and if it closed for another reason.
    pub fn refused(&self) -> Option<&Reply> {
        self.refused.as_ref()
    }

    /// The key of the debt whose command was the first without an answer when it closed. `None` while it is open, and
    /// if each command had its answer. Taking outcomes does not change it.
    pub fn first_unanswered(&self) -> Option<Key>
        ensures { (options : Options) (unread : List ℕ) (h : List Event)
            → StandsFor options self.now unread h → result ≡ first_unanswered options h }
    {
        self.machine.unanswered()
    }

    /// Whether the peer has answered a command about a debt with one of its codes (238, 335, 431 and so on), also
    /// once closed. The greeting and the answer to MODE STREAM do not count, nor does a reply that closed it.
    pub fn has_answered(&self) -> bool
        ensures { (options : Options) (unread : List ℕ) (h : List Event)
            → StandsFor options self.now unread h → result ≡ has_answered options h }
    {
        self.machine.has_answered()
    }
}
